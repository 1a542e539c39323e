/// A piece is at most so long, in bytes.
pub const BYTE_LIMIT: usize = 4_194_304;
