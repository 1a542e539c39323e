/// The most bytes of a text: 32 MiB.
pub const TEXT_LIMIT: usize = 33_554_432;
