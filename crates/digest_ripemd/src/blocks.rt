//! A message as it comes, block by block.
ghost use Rattle.std.specs.Prelude.{◌≡◌, ◌<◌, ◌/◌, ◌++◌, [], length, take};
ghost use Rattle.digest_ripemd.specs.Blocks.{Chained, after_blocks, chained, words_of};

use crate::rounds::Words;
use byteorder::{ByteOrder, LittleEndian};
use std::marker::Model;

const BLOCK_LEN: usize = 64;

// The words of a block.
fn words_of(block: &[u8]) -> [u32; 16]
    requires { length block.now ≡ 64 }
    ensures { result ≡ words_of 16 block.now }
{
    let mut words = [0; 16];
    LittleEndian::read_u32_into(block, &mut words);
    words
}

// The chaining words after the whole blocks of these bytes.
fn after_blocks(words: Words, bytes: &[u8]) -> Words
    ensures { result ≡ after_blocks words bytes.now (length bytes.now / 64) }
{
    let mut words = words;
    for i in 0..bytes.len() / BLOCK_LEN {
        words = words.after(&words_of(&bytes[BLOCK_LEN * i..BLOCK_LEN * i + BLOCK_LEN]));
    }
    words
}

/// The chaining words after the whole blocks of a message, and the bytes behind them.
#[derive(Drop)]
pub struct Chain {
    words: Words,
    block: [u8; BLOCK_LEN],
    used: usize,
}

impl Model for Chain {
    ghost Value = { Chained };

    ghost view = { λ s. record { words = s.words; rest = take s.used s.block } };

    ghost invariant = { λ s. s.used < 64 };
}

impl Chain {
    /// The chain of an empty message that begins with these words.
    pub fn new(words: Words) -> Chain
        ensures { result ≡ record { words = words; rest = [] } }
    {
        Chain {
            words,
            block: [0; BLOCK_LEN],
            used: 0,
        }
    }

    /// Adds a piece to the message.
    pub fn absorb(&mut self, piece: &[u8])
        ensures { self.new ≡ chained self.old.words (self.old.rest ++ piece.now) }
    {
        let used = self.used;
        let room = BLOCK_LEN - used;
        if piece.len() < room {
            self.block[used..used + piece.len()].copy_from_slice(piece);
            self.used = used + piece.len();
            return;
        }
        self.block[used..].copy_from_slice(&piece[..room]);
        let rest = &piece[room..];
        let behind = &rest[BLOCK_LEN * (rest.len() / BLOCK_LEN)..];
        self.words = after_blocks(after_blocks(self.words, &self.block), rest);
        self.block[..behind.len()].copy_from_slice(behind);
        self.used = behind.len();
    }

    /// The chaining words.
    pub fn words(&self) -> Words
        ensures { result ≡ self.now.words }
    {
        self.words
    }
}
