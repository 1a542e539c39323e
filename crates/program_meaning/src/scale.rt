use logic_meaning::VarId;

/// The numbers `low`, `low + step`, and so on, so many of them, for a name.
#[derive(Clone, Copy, Debug)]
pub struct Scale {
    pub name: VarId,
    pub low: i128,
    pub step: u128,
    pub count: u128,
}
