//! Numbers that look random, and are the same in each run of the program.

/// A linear congruential generator: each state is the one before, times `FACTOR` and then plus `SUMMAND`, without what
/// goes beyond 64 bits. Of a state the upper half is given, as the lower bits repeat soon.
#[derive(Clone, Copy)]
pub struct Random {
    state: u64,
}

/// The factor and the summand of Knuth's MMIX.
const FACTOR: u64 = 6_364_136_223_846_793_005;

const SUMMAND: u64 = 1_442_695_040_888_963_407;

impl Random {
    /// A generator that begins with this state.
    pub fn new(state: u64) -> Random {
        Random { state }
    }

    /// The next number, of 32 bits.
    pub fn next(&mut self) -> u64 {
        self.state = self.state.wrapping_mul(FACTOR).wrapping_add(SUMMAND);
        self.state >> 32
    }
}
