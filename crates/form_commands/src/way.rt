/// How quantifiers are eliminated: by cases, with the reference elimination where they pass a limit, or by the reference alone.
#[derive(Clone, Copy, Debug, PartialEq, Eq)]
pub enum Way {
    ByCases,
    ByReference,
}
