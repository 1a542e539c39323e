/// A bound formula has at most so many distinct subformulas.
pub const MOST_SUBFORMULAS: u64 = 100_000;
