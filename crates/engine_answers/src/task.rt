use crate::limits::Limits;
use normal_atoms::{Atom, Context};
use std::alloc::Global;

/// What an elimination is asked under: the theory of the numbers, the assumptions and the limits.
#[derive(Clone, Copy)]
pub(crate) struct Task<'a> {
    pub alloc: Global,
    pub context: Context,
    pub theory: &'a [Atom],
    pub limits: Limits,
}
