ghost use Rattle.std.specs.Prelude.{◌≡◌};
ghost use Rattle.redlog_reader.specs.Machine.{level, takes_last};
ghost use Rattle.redlog_reader.specs.View.{frame_of};

use crate::operand::Operand;
use language_meaning::{InnerWord, Relation};
use logic_meaning::{Junction, Name, Quantifier};
use written_syntax::{Formula, Term};

/// An implication: `impl`, `repl` or `equiv`.
#[derive(Clone, Copy, Debug, PartialEq, Eq)]
pub enum Arrow {
    Impl,
    Repl,
    Equiv,
}

/// The terms of a congruence so far.
#[derive(Drop)]
pub enum Arguments {
    First,
    Second(Box<Term>),
    Third(Box<Term>, Box<Term>),
}

/// What stands in the brackets of a command so far: its formula, and the atoms that it may assume.
#[derive(Drop)]
pub struct Call {
    pub word: InnerWord,
    pub formula: Formula,
    pub atoms: Vec<Formula>,
}

/// What has begun and waits for its last part. A congruence is `cong` where the test is true. The last sign of a sum is
/// `-`, and that of a product `/`, where the test is true.
#[derive(Drop)]
pub enum Pending {
    Group,
    Quantified(Quantifier, Vec<Name>),
    Congruence(bool, Arguments),
    Negation,
    Compares(Relation, Box<Term>),
    Added(bool, Vec<Term>),
    Multiplied(bool, Vec<Term>),
    Listed(Junction, Vec<Formula>),
    Arrows(Arrow, Box<Formula>),
    /// A command, of which a prime formula comes next.
    Commanded(InnerWord),
    /// The first term of an atom that a command may assume comes next.
    Assumes(Box<Call>),
    /// The second one comes next, after a relation.
    Relates(Box<Call>, Relation, Box<Term>),
}

/// What comes next: an operand, what may follow one, the exponent of a power, a part of what stands before the formula of
/// a quantifier or the first term of a congruence, or a part of what a command may assume.
#[derive(Drop)]
pub enum Expects {
    Operand,
    Power(Operand),
    Operator(Operand),
    Exponent(Box<Term>),
    Binder(Quantifier),
    Binding(Quantifier),
    Name(Quantifier, Vec<Name>),
    NameEnd(Quantifier, Vec<Name>),
    Scope(Quantifier, Vec<Name>),
    Terms(bool),
    Brace(Box<Call>),
    Atom(Box<Call>),
    AtomEnd(Box<Call>),
    GivenEnd(Box<Call>),
}

/// A terminal ends what is read, or moves on.
#[derive(Drop)]
pub enum Step {
    Stops(Operand),
    Moves(Expects),
}

/// How loosely what it makes binds; only its bracket ends one with 9.
pub fn level(pending: &Pending) -> usize
    ensures { result ≡ level (frame_of pending.now) }
{
    match pending {
        Pending::Group | Pending::Quantified(_, _) | Pending::Congruence(_, _) => 9,
        Pending::Assumes(_) | Pending::Relates(_, _, _) => 9,
        Pending::Commanded(_) => 0,
        Pending::Multiplied(_, _) => 1,
        Pending::Added(_, _) => 2,
        Pending::Compares(_, _) | Pending::Negation => 3,
        Pending::Listed(Junction::Conjunction, _) => 4,
        Pending::Listed(Junction::Disjunction, _) => 5,
        Pending::Arrows(Arrow::Impl, _) => 6,
        Pending::Arrows(Arrow::Repl, _) => 7,
        Pending::Arrows(Arrow::Equiv, _) => 8,
    }
}

/// How loosely its last part may bind.
pub fn takes_last(pending: &Pending) -> usize
    ensures { result ≡ takes_last (frame_of pending.now) }
{
    match pending {
        Pending::Group | Pending::Quantified(_, _) => 8,
        Pending::Multiplied(_, _) | Pending::Commanded(_) => 0,
        Pending::Added(_, _) => 1,
        Pending::Congruence(_, _) | Pending::Compares(_, _) => 2,
        Pending::Assumes(_) | Pending::Relates(_, _, _) => 2,
        Pending::Negation | Pending::Listed(Junction::Conjunction, _) => 3,
        Pending::Listed(Junction::Disjunction, _) => 4,
        Pending::Arrows(Arrow::Impl | Arrow::Repl, _) => 6,
        Pending::Arrows(Arrow::Equiv, _) => 7,
    }
}
