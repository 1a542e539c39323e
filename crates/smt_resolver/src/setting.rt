use formula_tree::Names;
use normal_atoms::Context;
use std::alloc::Global;

/// What an assertion is read with: the theory, the declared names, and how many nodes the formula may have.
#[derive(Drop)]
pub struct Setting<'a> {
    pub alloc: Global,
    pub context: Context,
    pub declared: &'a Names,
    pub limit: u64,
}
