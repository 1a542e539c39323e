/// What an elimination may cost in nodes, and by how many threads at most it is worked on.
#[derive(Clone, Copy, Debug, PartialEq, Eq)]
pub struct Limits {
    pub nodes: u64,
    pub workers: usize,
}
