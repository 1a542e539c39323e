/// The words of the commands that may stand inside a formula.
#[derive(Clone, Copy, Debug, PartialEq, Eq)]
pub enum InnerWord {
    Nnf,
    Pnf,
    Dnf,
    Cnf,
    Simpl,
    Qe,
}
