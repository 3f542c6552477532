//! The two lines of five rounds that run over a block.
ghost use Rattle.std.specs.Prelude.{◌≡◌, ◌<◌, ℕ, List, nat_lt, IsTrue};
ghost use Rattle.std.specs.List.{list_all};
ghost use Rattle.digest_ripemd.specs.Lines.{value_of, round_step, after_round, line_rounds, combined, after_words};
ghost use Rattle.digest_ripemd.specs.Tables.{left_line, right_line};

/// Five words: the chaining words, or the variables of a line.
#[derive(Clone, Copy)]
pub struct Words {
    pub a: u32,
    pub b: u32,
    pub c: u32,
    pub d: u32,
    pub e: u32,
}

/// The function of a round.
#[derive(Clone, Copy)]
pub enum Function {
    F1,
    F2,
    F3,
    F4,
    F5,
}

/// A round of sixteen steps.
#[derive(Clone, Copy)]
pub struct Round {
    pub function: Function,
    pub constant: u32,
    /// Which word of the block each step reads.
    pub order: [usize; 16],
    /// By how many bits each step rotates.
    pub rotations: [u32; 16],
}

// The rounds of the left line.
const LEFT: [Round; 5] = [
    Round {
        function: Function::F1,
        constant: 0x0000_0000,
        order: [0, 1, 2, 3, 4, 5, 6, 7, 8, 9, 10, 11, 12, 13, 14, 15],
        rotations: [11, 14, 15, 12, 5, 8, 7, 9, 11, 13, 14, 15, 6, 7, 9, 8],
    },
    Round {
        function: Function::F2,
        constant: 0x5A82_7999,
        order: [7, 4, 13, 1, 10, 6, 15, 3, 12, 0, 9, 5, 2, 14, 11, 8],
        rotations: [7, 6, 8, 13, 11, 9, 7, 15, 7, 12, 15, 9, 11, 7, 13, 12],
    },
    Round {
        function: Function::F3,
        constant: 0x6ED9_EBA1,
        order: [3, 10, 14, 4, 9, 15, 8, 1, 2, 7, 0, 6, 13, 11, 5, 12],
        rotations: [11, 13, 6, 7, 14, 9, 13, 15, 14, 8, 13, 6, 5, 12, 7, 5],
    },
    Round {
        function: Function::F4,
        constant: 0x8F1B_BCDC,
        order: [1, 9, 11, 10, 0, 8, 12, 4, 13, 3, 7, 15, 14, 5, 6, 2],
        rotations: [11, 12, 14, 15, 14, 15, 9, 8, 9, 14, 5, 6, 8, 6, 5, 12],
    },
    Round {
        function: Function::F5,
        constant: 0xA953_FD4E,
        order: [4, 0, 5, 9, 7, 12, 2, 10, 14, 1, 3, 8, 11, 6, 15, 13],
        rotations: [9, 15, 5, 11, 6, 8, 13, 12, 5, 12, 13, 14, 11, 8, 5, 6],
    },
];

// The rounds of the right line.
const RIGHT: [Round; 5] = [
    Round {
        function: Function::F5,
        constant: 0x50A2_8BE6,
        order: [5, 14, 7, 0, 9, 2, 11, 4, 13, 6, 15, 8, 1, 10, 3, 12],
        rotations: [8, 9, 9, 11, 13, 15, 15, 5, 7, 7, 8, 11, 14, 14, 12, 6],
    },
    Round {
        function: Function::F4,
        constant: 0x5C4D_D124,
        order: [6, 11, 3, 7, 0, 13, 5, 10, 14, 15, 8, 12, 4, 9, 1, 2],
        rotations: [9, 13, 15, 7, 12, 8, 9, 11, 7, 7, 12, 7, 6, 15, 13, 11],
    },
    Round {
        function: Function::F3,
        constant: 0x6D70_3EF3,
        order: [15, 5, 1, 3, 7, 14, 6, 9, 11, 8, 12, 2, 10, 0, 4, 13],
        rotations: [9, 7, 15, 11, 8, 6, 6, 14, 12, 13, 5, 14, 13, 13, 7, 5],
    },
    Round {
        function: Function::F2,
        constant: 0x7A6D_76E9,
        order: [8, 6, 4, 1, 3, 11, 15, 0, 5, 12, 2, 13, 9, 7, 10, 14],
        rotations: [15, 5, 8, 11, 14, 14, 6, 14, 6, 9, 12, 9, 12, 5, 15, 8],
    },
    Round {
        function: Function::F1,
        constant: 0x0000_0000,
        order: [12, 15, 10, 4, 1, 5, 8, 7, 6, 2, 13, 14, 0, 3, 9, 11],
        rotations: [8, 5, 12, 9, 12, 5, 14, 6, 8, 13, 6, 5, 15, 13, 11, 11],
    },
];

impl Function {
    #[inline(always)]
    fn value(self, b: u32, c: u32, d: u32) -> u32
        ensures { result ≡ value_of self b c d }
    {
        match self {
            Function::F1 => b ^ c ^ d,
            Function::F2 => (b & c) | (!b & d),
            Function::F3 => (b | !c) ^ d,
            Function::F4 => (b & d) | (c & !d),
            Function::F5 => b ^ (c | !d),
        }
    }
}

impl Words {
    #[inline(always)]
    fn step(self, function: Function, constant: u32, word: u32, rotation: u32) -> Words
        ensures { result ≡ round_step function constant word rotation self }
    {
        let value = function.value(self.b, self.c, self.d);
        // The value depends on the step before, so adding it last shortens the chain.
        let sum = self
            .a
            .wrapping_add(word)
            .wrapping_add(constant)
            .wrapping_add(value);
        Words {
            a: self.e,
            b: sum.rotate_left(rotation).wrapping_add(self.e),
            c: self.b,
            d: self.c.rotate_left(10),
            e: self.d,
        }
    }

    #[inline(always)]
    fn round(self, words: &[u32; 16], round: &Round) -> Words
        requires { IsTrue (list_all (λ place. nat_lt place 16) round.now.order) }
        ensures { result ≡ after_round words.now round.now self }
    {
        let mut line = self;
        for i in 0..16 {
            line = line.step(
                round.function,
                round.constant,
                words[round.order[i]],
                round.rotations[i],
            );
        }
        line
    }

    fn left_line(self, words: &[u32; 16]) -> Words
        ensures { result ≡ line_rounds words.now left_line self }
    {
        self.round(words, &LEFT[0])
            .round(words, &LEFT[1])
            .round(words, &LEFT[2])
            .round(words, &LEFT[3])
            .round(words, &LEFT[4])
    }

    fn right_line(self, words: &[u32; 16]) -> Words
        ensures { result ≡ line_rounds words.now right_line self }
    {
        self.round(words, &RIGHT[0])
            .round(words, &RIGHT[1])
            .round(words, &RIGHT[2])
            .round(words, &RIGHT[3])
            .round(words, &RIGHT[4])
    }

    // These chaining words, joined with what the two lines made of them.
    fn combine(self, left: Words, right: Words) -> Words
        ensures { result ≡ combined self left right }
    {
        Words {
            a: self.b.wrapping_add(left.c).wrapping_add(right.d),
            b: self.c.wrapping_add(left.d).wrapping_add(right.e),
            c: self.d.wrapping_add(left.e).wrapping_add(right.a),
            d: self.e.wrapping_add(left.a).wrapping_add(right.b),
            e: self.a.wrapping_add(left.b).wrapping_add(right.c),
        }
    }

    /// The chaining words after a block of these words.
    pub fn after(self, words: &[u32; 16]) -> Words
        ensures { result ≡ after_words words.now self }
    {
        self.combine(self.left_line(words), self.right_line(words))
    }
}
