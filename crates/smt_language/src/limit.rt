/// No more parentheses than these are open at once.
pub const DEPTH_LIMIT: usize = 512;
