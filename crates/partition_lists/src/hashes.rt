//! The two hashes, and the place of a node in a partition.
ghost use Rattle.std.specs.Prelude.{◌≡◌, ℕ, List};
ghost use Rattle.partition_lists.specs.Hashes.{fnv1a, one_at_a_time, place, place_after, jenkins_state, jenkins_step, jenkins_end, node_bytes, partition_bytes};

use cluster_types::{NodeId, PartitionId};

/// FNV-1a of no bytes.
const BASIS: u64 = 0xcbf2_9ce4_8422_2325;

/// What FNV-1a multiplies by.
const PRIME: u64 = 0x100_0000_01b3;

/// The FNV-1a hash of 64 bits.
#[tactic(auto, unfolding(crate::specs::Hashes::fnv1a))]
pub fn fnv1a(bytes: &[u8]) -> u64
    ensures { result ≡ fnv1a bytes.now }
{
    bytes.iter().fold(BASIS, |hash, byte| {
        (hash ^ u64::from(*byte)).wrapping_mul(PRIME)
    })
}

/// Jenkins's one-at-a-time hash of 32 bits.
pub fn one_at_a_time(bytes: &[u8]) -> u32
    ensures { result ≡ one_at_a_time bytes.now }
{
    jenkins_end(jenkins_state(0, bytes))
}

/// The number by which the node stands in the list of the partition: the one-at-a-time hash of the
/// FNV-1a hashes of the node (8 bytes) and the partition (2 bytes), each 8 bytes. All numbers are
/// written with the low byte first.
pub fn place(n: NodeId, p: PartitionId) -> u32
    ensures { result ≡ place n p }
{
    place_from(node_state(n), &partition_bytes(p))
}

/// The state of one-at-a-time after the node's part of the input.
#[tactic(auto, unfolding(crate::specs::Hashes::node_bytes))]
pub(crate) fn node_state(n: NodeId) -> u32
    ensures { result ≡ jenkins_state 0 (node_bytes n) }
{
    jenkins_state(
        0,
        &fnv1a(&u64::from(n.number()).to_le_bytes()).to_le_bytes(),
    )
}

/// The partition's part of the input.
#[tactic(auto, unfolding(crate::specs::Hashes::partition_bytes))]
pub(crate) fn partition_bytes(p: PartitionId) -> [u8; 8]
    ensures { result ≡ partition_bytes p }
{
    fnv1a(&p.number().to_le_bytes()).to_le_bytes()
}

/// The place where the node's part of the input led to this state.
pub(crate) fn place_from(state: u32, partition: &[u8]) -> u32
    ensures { (p : ℕ) → partition.now ≡ partition_bytes p → result ≡ place_after p state }
{
    jenkins_end(jenkins_state(state, partition))
}

#[tactic(auto, unfolding(crate::specs::Hashes::jenkins_state))]
fn jenkins_state(state: u32, bytes: &[u8]) -> u32
    ensures { result ≡ jenkins_state state bytes.now }
{
    bytes
        .iter()
        .fold(state, |hash, byte| jenkins_step(hash, *byte))
}

fn jenkins_step(hash: u32, byte: u8) -> u32
    ensures { result ≡ jenkins_step hash byte }
{
    let sum = hash.wrapping_add(u32::from(byte));
    let sum = sum.wrapping_add(sum << 10);
    sum ^ (sum >> 6)
}

#[tactic(auto, unfolding(crate::specs::Hashes::jenkins_end))]
fn jenkins_end(hash: u32) -> u32
    ensures { result ≡ jenkins_end hash }
{
    let sum = hash.wrapping_add(hash << 3);
    let sum = sum ^ (sum >> 11);
    sum.wrapping_add(sum << 15)
}
