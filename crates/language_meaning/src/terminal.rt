use crate::tree::{Literal, Relation};
use logic_meaning::Name;

/// A token as the grammar names it.
#[derive(Clone, Copy)]
pub enum Terminal {
    Number(Literal),
    Name(Name),
    Relation(Relation),
    Mark(Mark),
    Word(Word),
}

/// A sign that is no relation. `Power` is `^` or `**`.
#[derive(Clone, Copy, PartialEq, Eq)]
pub enum Mark {
    Plus,
    Minus,
    Times,
    Slash,
    Power,
    Open,
    Close,
    OpenBrace,
    CloseBrace,
    Comma,
    Semicolon,
    Dollar,
    Assign,
}

/// A word. `Other` is one that no statement begins with so far, or `infinity` or `epsilon` with a number.
#[derive(Clone, Copy, PartialEq, Eq)]
pub enum Word {
    True,
    False,
    Not,
    And,
    Or,
    Impl,
    Repl,
    Equiv,
    Ex,
    All,
    Cong,
    Ncong,
    Neq,
    Set,
    Nnf,
    Pnf,
    Dnf,
    Cnf,
    Simpl,
    Qe,
    Qea,
    Holds,
    Witness,
    Assume,
    Retract,
    Grid,
    Cert,
    Check,
    Opt,
    Load,
    On,
    Off,
    End,
    Bye,
    Quit,
    Other,
}
