//! Choices by number.

/// A number of which choices are taken, one behind the other: each number has others, and 0 the first of all.
#[derive(Clone, Copy)]
pub struct Choices {
    pub left: u64,
}

impl Choices {
    /// One of so many: the first where nothing of the number is left.
    pub fn below(&mut self, count: usize) -> usize {
        let count = count as u64;
        let choice = self.left.checked_rem(count).unwrap_or(0);
        self.left = self.left.checked_div(count).unwrap_or(0);
        usize::try_from(choice).unwrap_or(0)
    }
}
