//! The ranks of members, which are the same for every partition but for the places.
ghost use Rattle.std.specs.Prelude.{◌≡◌, ◌<◌, ◌≤◌, nat_lt, length, map, take, All};
ghost use Rattle.std.specs.List.{list_any};
ghost use Rattle.partition_lists.specs.Candidates.{candidates_of, is_ahead, repeats, rank_in};
ghost use Rattle.partition_lists.specs.Hashes.{place_after};
ghost use Rattle.partition_lists.specs.Lists.{list, IsListOf, in_order};
ghost use Rattle.partition_lists.specs.RankKeys.{CandidateFits, RankFits, id_in, key_of};
ghost use Rattle.partition_lists.specs.Ranks.{is_smaller};
ghost use Rattle.partition_lists.specs.NodeStates.{node_states};
ghost use Rattle.cluster_types.specs.Distinct.{AreDistinct};

use crate::hashes::{node_state, partition_bytes, place_from};
use cluster_types::{Member, Members, NodeId, NodeList, PartitionId, Role};
use std::marker::Model;

/// How many members there may be.
const LIMIT: usize = 16;

/// How many nodes are hashed side by side.
const LANES: usize = 8;

/// The rack of a member that has none.
const NO_RACK: u8 = 0;

/// The members of a view, of which each node was hashed once. It gives the lists of many
/// partitions at less cost than `list`.
#[derive(Drop)]
pub struct Ranks {
    members: Members,
    states: [u32; 16],
}

impl Model for Ranks {
    ghost use Rattle.std.specs.Prelude.{◌≡◌, List, length, take};
    ghost use Rattle.cluster_types.specs.declared.member.Member.{Member};
    ghost use Rattle.partition_lists.specs.NodeStates.{node_states};

    ghost Value = { List Member };

    ghost view = { λ r. r.members };

    ghost invariant = { λ r. take (length r.members) r.states ≡ node_states r.members };
}

/// How many places there are, and how many ids.
const PLACES: u64 = 1 << 32;

const IDS: u64 = 1 << 16;

/// By what members stand in a list, in this order.
#[derive(Clone, Copy)]
pub(crate) struct Rank {
    quiesced: bool,
    repeats_rack: bool,
    place: u32,
    id: NodeId,
}

impl Rank {
    /// The rank as one number, so that two of them are compared at once.
    fn key(self) -> u64
        ensures { result ≡ key_of self }
    {
        let marks = u64::from(self.quiesced) * 2 + u64::from(self.repeats_rack);
        (marks * PLACES + u64::from(self.place)) * IDS + u64::from(self.id.number())
    }
}

/// A member, and the place of its node in one partition.
#[derive(Clone, Copy)]
pub(crate) struct Candidate {
    member: Member,
    place: u32,
}

impl Candidate {
    const PLACEHOLDER: Candidate = Candidate {
        member: Member {
            id: NodeId::MIN,
            role: Role::PLAIN,
        },
        place: 0,
    };
}

impl Ranks {
    /// The ranks of these members.
    pub fn of(m: &Members) -> Ranks
        ensures { result ≡ m.now }
    {
        let mut states = [0; LIMIT];
        hash_nodes(m.as_slice(), &mut states[..m.len()]);
        Ranks {
            members: *m,
            states,
        }
    }

    /// What `list` gives of the members and the partition.
    pub fn list(&self, p: PartitionId) -> NodeList
        ensures value { result ≡ list self.now p }
        ensures placed { IsListOf self.now p result }
    {
        let members = self.members.as_slice();
        let mut room = [Candidate::PLACEHOLDER; LIMIT];
        let candidates = &mut room[..members.len()];
        place_members(members, &self.states, p, candidates);
        ids_by_rank(candidates)
    }
}

fn hash_nodes(members: &[Member], states: &mut [u32])
    requires { length members.now ≡ length states.old }
    ensures { states.new ≡ node_states members.now }
{
    for i in 0..members.len() {
        states[i] = node_state(members[i].id);
    }
}

fn place_members(
    members: &[Member],
    states: &[u32; 16],
    p: PartitionId,
    candidates: &mut [Candidate],
)
    requires states { take (length members.now) states.now ≡ node_states members.now }
    requires room { length members.now ≡ length candidates.old }
    requires limit { length members.now ≤ 16 }
    ensures { candidates.new ≡ candidates_of members.now p }
{
    let places = places_of(states, members.len(), p);
    for i in 0..members.len() {
        candidates[i] = Candidate {
            member: members[i],
            place: places[i],
        };
    }
}

/// The places of so many nodes, and others behind them.
fn places_of(states: &[u32; 16], count: usize, p: PartitionId) -> [u32; 16]
    requires { count ≤ 16 }
    ensures { take count result ≡ map (place_after p) (take count states.now) }
{
    let mut places = [0; LIMIT];
    // Of a loop whose rounds are known beforehand LLVM makes vector code, which hashes the nodes
    // side by side.
    if count <= LANES {
        hash_places(&states[..LANES], p, &mut places[..LANES]);
    } else {
        hash_places(states, p, &mut places);
    }
    places
}

fn hash_places(states: &[u32], p: PartitionId, places: &mut [u32])
    requires { length states.now ≡ length places.old }
    ensures { places.new ≡ map (place_after p) states.now }
{
    let partition = partition_bytes(p);
    for i in 0..states.len() {
        places[i] = place_from(states[i], &partition);
    }
}

fn ids_by_rank(candidates: &[Candidate]) -> NodeList
    requires limit { length candidates.now ≤ 16 }
    requires distinct { AreDistinct (map (λ c. c.member.id) candidates.now) }
    ensures { result
        ≡ map (λ r. r.id) (in_order is_smaller (map (rank_in candidates.now) candidates.now)) }
{
    let mut room = [0; LIMIT];
    let keys = &mut room[..candidates.len()];
    candidates_fit(candidates);
    rank_candidates(candidates, keys);
    sort(keys);
    ids_of(keys)
}

/// Their types keep the ranges of places and ids.
fn candidates_fit(candidates: &[Candidate])
    ensures { All CandidateFits candidates.now }
{
    for candidate in candidates {
        candidate_fits(candidate);
    }
}

fn candidate_fits(candidate: &Candidate)
    ensures { CandidateFits candidate.now }
{
    let _place = candidate.place;
    let _number = candidate.member.id.number();
}

fn rank_candidates(candidates: &[Candidate], keys: &mut [u64])
    requires { length candidates.now ≡ length keys.old }
    ensures { keys.new ≡ map key_of (map (rank_in candidates.now) candidates.now) }
{
    for i in 0..candidates.len() {
        keys[i] = rank_in(candidates, &candidates[i]).key();
    }
}

fn rank_in(candidates: &[Candidate], c: &Candidate) -> Rank
    ensures { result ≡ rank_in candidates.now c.now }
{
    Rank {
        quiesced: c.member.role.quiesced,
        repeats_rack: repeats_rack(candidates, c),
        place: c.place,
        id: c.member.id,
    }
}

fn repeats_rack(candidates: &[Candidate], c: &Candidate) -> bool
    ensures { result ≡ repeats candidates.now c.now }
{
    let role = c.member.role;
    if role.quiesced || role.rack == NO_RACK {
        return false;
    }
    is_any_ahead(candidates, c)
}

fn is_any_ahead(candidates: &[Candidate], c: &Candidate) -> bool
    ensures { result ≡ list_any (λ first. is_ahead first c.now) candidates.now }
{
    candidates.iter().any(|first| is_ahead(first, c))
}

#[tactic(auto, unfolding(crate::specs::Candidates::is_ahead))]
fn is_ahead(first: &Candidate, c: &Candidate) -> bool
    ensures { result ≡ is_ahead first.now c.now }
{
    !first.member.role.quiesced
        && first.member.role.rack == c.member.role.rack
        && (first.place, first.member.id) < (c.place, c.member.id)
}

fn sort(keys: &mut [u64])
    requires { AreDistinct (map id_in keys.old) }
    ensures order { keys.new ≡ in_order nat_lt keys.old }
    ensures distinct { AreDistinct (map id_in keys.new) }
{
    keys.sort_unstable();
}

fn ids_of(keys: &[u64]) -> NodeList
    requires limit { length keys.now ≤ 16 }
    requires distinct { AreDistinct (map id_in keys.now) }
    requires nodes { All (λ key. 0 < id_in key) keys.now }
    ensures { result ≡ map id_in keys.now }
{
    let mut ids = NodeList::new();
    for key in keys {
        ids.push(id_in(*key));
    }
    ids
}

/// The id in the number of a rank.
fn id_in(key: u64) -> NodeId
    requires { 0 < id_in key }
    ensures { result ≡ id_in key }
{
    match NodeId::new((key % IDS) as u16) {
        Some(id) => id,
        None => unreachable!(),
    }
}
