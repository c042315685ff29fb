//! Pseudo-random numbers, determined by a seed.

/// A SplitMix64 generator.
#[derive(Drop)]
pub struct Draw {
    state: u64,
}

impl Draw {
    pub fn of_seed(seed: u64) -> Draw {
        Draw { state: seed }
    }

    pub fn number(&mut self) -> u64 {
        self.state = self.state.wrapping_add(0x9e37_79b9_7f4a_7c15);
        let mixed = (self.state ^ (self.state >> 30)).wrapping_mul(0xbf58_476d_1ce4_e5b9);
        let mixed = (mixed ^ (mixed >> 27)).wrapping_mul(0x94d0_49bb_1331_11eb);
        mixed ^ (mixed >> 31)
    }

    /// A number below `bound`, or 0 if `bound` is 0.
    pub fn below(&mut self, bound: usize) -> usize {
        let number = self.number() as usize;
        if bound == 0 { 0 } else { number % bound }
    }

    /// Whether the first of `cases` equally likely cases is drawn.
    pub fn is_one_in(&mut self, cases: usize) -> bool {
        self.below(cases) == 0
    }

    pub fn byte(&mut self) -> u8 {
        (self.number() & 0xff) as u8
    }
}
