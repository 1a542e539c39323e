/// What a line is counted as.
#[derive(Clone, Copy)]
pub enum LineKind {
    Truth,
    Falsehood,
    Refusal,
}
