//! Digests of messages that come in pieces.
ghost use Rattle.std.specs.Prelude.{◌≡◌, ◌+◌, ◌-◌, ◌%◌, ◌^◌, ◌<◌, ◌∷◌, ◌++◌, ℕ, List, [], length, replicate};
ghost use Rattle.digest_ripemd.specs.Digests.{Hashing, digest_of, fed, initial, ripemd160};

use crate::blocks::Chain;
use crate::rounds::Words;
use byteorder::{ByteOrder, LittleEndian};
use cluster_types::Digest;
use std::marker::Model;

const INITIAL: Words = Words {
    a: 0x6745_2301,
    b: 0xEFCD_AB89,
    c: 0x98BA_DCFE,
    d: 0x1032_5476,
    e: 0xC3D2_E1F0,
};

// What stands between the name of a set and a key.
const SEPARATOR: u8 = 3;

// A bit and then zeros, as many as any padding has before the length.
const PADDING: [u8; 64] = [
    0x80, 0, 0, 0, 0, 0, 0, 0, 0, 0, 0, 0, 0, 0, 0, 0, 0, 0, 0, 0, 0, 0, 0, 0, 0, 0, 0, 0, 0, 0, 0,
    0, 0, 0, 0, 0, 0, 0, 0, 0, 0, 0, 0, 0, 0, 0, 0, 0, 0, 0, 0, 0, 0, 0, 0, 0, 0, 0, 0, 0, 0, 0, 0,
    0,
];

// The padding of a message of so many bytes, up to the length.
fn padding(count: u64) -> &'static [u8]
    ensures { result.now ≡ 0x80 ∷ replicate ((119 - count % 64) % 64) 0 }
{
    let zeros = (119 - count % 64) % 64;
    &PADDING[..zeros as usize + 1]
}

/// A RIPEMD-160 digest in the making: `new`, an `update` for each piece of the message, `finish`.
#[derive(Drop)]
pub struct Ripemd160 {
    chain: Chain,
    count: u64,
}

impl Model for Ripemd160 {
    ghost Value = { Hashing };

    ghost view = { λ s. record { count = s.count; chain = s.chain } };

    ghost invariant = { λ s. s.count < 2 ^ 61 };
}

impl Ripemd160 {
    /// The digest of an empty message.
    pub fn new() -> Ripemd160
        ensures { result ≡ fed [] }
    {
        Ripemd160 {
            chain: Chain::new(INITIAL),
            count: 0,
        }
    }

    /// Adds a piece to the message, which stays shorter than 2^61 bytes.
    pub fn update(&mut self, piece: &[u8])
        requires { self.old.count + length piece.now < 2 ^ 61 }
        ensures count { self.new.count ≡ self.old.count + length piece.now }
        ensures message { (message : List ℕ) → self.old ≡ fed message
            → self.new ≡ fed (message ++ piece.now) }
    {
        self.chain.absorb(piece);
        self.count += piece.len() as u64;
    }

    /// The digest of the message.
    pub fn finish(self) -> Digest
        ensures { (message : List ℕ) → self ≡ fed message → result ≡ ripemd160 message }
    {
        let Ripemd160 { mut chain, count } = self;
        chain.absorb(padding(count));
        chain.absorb(&(8 * count).to_le_bytes());
        let words = chain.words();
        let mut bytes = [0; 20];
        LittleEndian::write_u32_into(&[words.a, words.b, words.c, words.d, words.e], &mut bytes);
        Digest::new(bytes)
    }
}

/// The digest of the record with this key in the set with this name, which is the empty name for
/// the set without one. Together they are shorter than 2^60 bytes.
pub fn digest_of(set_name: &[u8], key: &[u8]) -> Digest
    requires { length set_name.now + length key.now < 2 ^ 60 }
    ensures { result ≡ digest_of set_name.now key.now }
{
    let mut hasher = Ripemd160::new();
    hasher.update(set_name);
    hasher.update(&[SEPARATOR]);
    hasher.update(key);
    hasher.finish()
}
