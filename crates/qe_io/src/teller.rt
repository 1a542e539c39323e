use crate::place::Place;
use program_meaning::{SmtError, StatementError};

/// Why a statement of Redlog's language, or a command of SMT-LIB, is refused.
#[derive(Clone, Copy, Debug, PartialEq, Eq)]
pub enum Cause {
    Statement(StatementError),
    Command(SmtError),
}

/// A refusal: the bytes of the statement from its first token on, where they are kept, where that token stands, and why the statement is
/// refused.
#[derive(Clone, Copy)]
pub struct Refusal<'a> {
    pub bytes: Option<&'a [u8]>,
    pub place: Place,
    pub cause: Cause,
}

/// Who is told of each refusal, behind the line that says it. Nothing is promised of what becomes of that, and it cannot change the run.
pub trait Teller {
    /// Takes the refusal.
    fn tell(&self, refusal: &Refusal<'_>);
}

/// Is told, and drops it.
#[derive(Clone, Copy, Debug)]
pub struct Nobody;

impl Teller for Nobody {
    fn tell(&self, _refusal: &Refusal<'_>) {}
}
