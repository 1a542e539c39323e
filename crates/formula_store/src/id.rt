/// The number of a formula of a store.
#[derive(Clone, Copy, Debug, PartialEq, Eq, PartialOrd, Ord, Hash)]
pub struct FormulaId {
    pub(crate) number: usize,
}
