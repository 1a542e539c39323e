//! What a statement says of its tokens, each told by its number.

use std::alloc::Global;

/// The names that stand as formulas, in terms, behind quantifiers, and in front of values; and the first factor, divisor, modulus and
/// denominator that a statement may be refused for, as far as the text shows it.
#[derive(Drop)]
pub struct Facts {
    pub formulas: Vec<usize>,
    pub terms: Vec<usize>,
    pub quantified: Vec<usize>,
    pub entries: Vec<usize>,
    pub factor: Option<usize>,
    pub divisor: Option<usize>,
    pub slash: Option<usize>,
    pub modulus: Option<usize>,
    pub denominator: Option<usize>,
}

impl Facts {
    /// Nothing was read.
    pub fn new(alloc: Global) -> Facts {
        Facts {
            formulas: Vec::new(alloc),
            terms: Vec::new(alloc),
            quantified: Vec::new(alloc),
            entries: Vec::new(alloc),
            factor: None,
            divisor: None,
            slash: None,
            modulus: None,
            denominator: None,
        }
    }
}
