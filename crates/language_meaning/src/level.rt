/// No level of a token passes this.
pub const LEVEL_LIMIT: usize = 512;

/// What counts in an open group of brackets.
#[derive(Clone, Copy)]
pub struct Group {
    pub opened: usize,
    pub arrows: usize,
    pub slashes: usize,
}

/// How a token changes the open groups.
#[derive(Clone, Copy)]
pub enum Change {
    Opens,
    Closes,
    Inside,
}
