use normal_atoms::{Atom, Context};
use std::alloc::Global;

/// What all steps of a block share: the theory, the assumptions, none of which has a name of the block, and by how many threads at
/// most the points of a step are put in.
#[derive(Clone, Copy)]
pub struct Work<'a> {
    pub alloc: Global,
    pub context: Context,
    pub assumed: &'a [Atom],
    pub workers: usize,
}
