use exact_numbers::Fraction;

/// What the last `check-sat` left for `get-value`.
#[derive(Drop)]
pub enum Kept {
    /// There was none, it did not say `sat`, or a command after it changed the state.
    Nothing,
    /// It said `sat`, and the values pass the limit.
    TooLarge,
    /// The values of the declared names, in their order.
    Values(Vec<Fraction>),
}
