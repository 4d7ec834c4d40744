//! Numbers that seem to be drawn, and are the same each time.

/// The draws of one number.
#[derive(Drop)]
pub struct Draws {
    state: u64,
}

impl Draws {
    /// The draws of this number.
    pub fn new(number: u64) -> Draws {
        Draws {
            state: number.wrapping_mul(11_400_714_819_323_198_485),
        }
    }

    /// The next number below this one, or 0.
    pub fn below(&mut self, count: usize) -> usize {
        self.state = self
            .state
            .wrapping_mul(6_364_136_223_846_793_005)
            .wrapping_add(1_442_695_040_888_963_407);
        let drawn = usize::try_from(self.state >> 33).unwrap_or(0);
        drawn.checked_rem(count).unwrap_or(0)
    }
}
