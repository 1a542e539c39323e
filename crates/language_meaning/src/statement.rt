/// The two theories as a script names them.
#[derive(Clone, Copy, Debug, PartialEq, Eq)]
pub enum Setting {
    Ofsf,
    Pasf,
}
