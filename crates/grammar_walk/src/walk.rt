//! A walk over the tokens of a statement that stops at the first one with which no statement goes on.

use crate::brackets::{Atoms, Bracket, Factor, Open, Part, Side, Wants};
use crate::facts::Facts;
use crate::next::{Argument, Next, Sign, Slot, Then};
use crate::operand::{Kind, Operand};
use language_meaning::{Literal, Mark, Relation, Terminal, Word};
use std::alloc::{AllocError, Global};

/// A walk: what may come next, what is open, what is open around that, each with the number of its bracket, the last operand, what the
/// statement says, how many tokens were taken, and the number of the one behind the last comma.
#[derive(Drop)]
pub struct Walk {
    pub next: Next,
    pub open: Open,
    around: Vec<(Open, usize)>,
    pub operand: Operand,
    pub facts: Facts,
    pub taken: usize,
    item: usize,
}

/// What comes next behind a token, or none where the token cannot stand there.
type Taken = Result<Option<Next>, AllocError>;

/// Walks over these tokens, as far as a statement goes on with them.
pub fn walk_over(alloc: Global, terminals: &[Terminal]) -> Result<Walk, AllocError> {
    let mut walk = Walk::new(alloc);
    for terminal in terminals {
        let Some(next) = walk.take(terminal)? else {
            break;
        };
        walk.next = next;
        walk.taken = walk.taken.saturating_add(1);
    }
    Ok(walk)
}

impl Walk {
    /// Before the first token.
    fn new(alloc: Global) -> Walk {
        Walk {
            next: Next::Statement,
            open: Open::new(Bracket::Statement, Wants::Formula),
            around: Vec::new(alloc),
            operand: Operand::formula(0),
            facts: Facts::new(alloc),
            taken: 0,
            item: 0,
        }
    }

    /// Takes a token.
    fn take(&mut self, terminal: &Terminal) -> Taken {
        match self.next {
            Next::Statement => self.begin_statement(terminal),
            Next::Operand(sign) => self.begin_operand(sign, terminal),
            Next::FirstAtom(atoms) => match terminal {
                Terminal::Mark(Mark::CloseBrace) => Ok(self.close_atoms(atoms)),
                _ => self.begin_operand(Sign::May, terminal),
            },
            Next::Prime(argument) => self.begin_prime(argument, terminal),
            Next::Behind => self.behind(terminal),
            Next::Exponent => self.exponent(terminal),
            Next::Open(bracket) => self.open_bracket(bracket, terminal),
            Next::Brace(atoms) => self.open_atoms(atoms, terminal),
            Next::Binding | Next::Bound | Next::BoundBehind | Next::ScopeComma => {
                self.bind(terminal)
            }
            _ => self.take_value(terminal),
        }
    }

    /// Takes the first token of a statement.
    fn begin_statement(&mut self, terminal: &Terminal) -> Taken {
        let Terminal::Word(word) = terminal else {
            return match terminal {
                Terminal::Mark(Mark::Semicolon | Mark::Dollar) => Ok(Some(Next::Nothing)),
                _ => self.begin_operand(Sign::May, terminal),
            };
        };
        let next = match word {
            Word::Set => Next::Context,
            Word::Load | Word::On | Word::Off => Next::Any,
            Word::Assume => Next::Brace(Atoms::Assumed),
            Word::Retract | Word::End | Word::Bye | Word::Quit => Next::End,
            Word::Qea => {
                self.open.wants = Wants::Query;
                Next::Prime(Argument::Given)
            }
            Word::Holds | Word::Witness => Next::Open(Bracket::Pointed),
            Word::Grid => Next::Open(Bracket::Grid),
            Word::Cert => Next::Open(Bracket::Certificate),
            Word::Check => Next::Open(Bracket::Check),
            Word::Opt => Next::Open(Bracket::Problem),
            _ => return Ok(self.begin_word(*word)),
        };
        Ok(Some(next))
    }

    /// Takes the first token of an operand.
    fn begin_operand(&mut self, sign: Sign, terminal: &Terminal) -> Taken {
        match terminal {
            Terminal::Number(number) => {
                self.operand = Operand::number(self.taken, *number == Literal::Fits(0));
                Ok(Some(Next::Behind))
            }
            Terminal::Name(_) => {
                self.operand = Operand::name(self.taken);
                Ok(Some(Next::Behind))
            }
            Terminal::Mark(Mark::Open) => {
                let wants = if self.open.may_begin_formula() {
                    Wants::Either
                } else {
                    Wants::Term
                };
                self.push(Open::new(Bracket::Group, wants))?;
                Ok(Some(Next::Operand(Sign::May)))
            }
            Terminal::Mark(Mark::Plus | Mark::Minus) if sign == Sign::May => {
                self.open.is_term = true;
                Ok(Some(Next::Operand(Sign::Taken)))
            }
            Terminal::Word(word) => Ok(self.begin_word(*word)),
            _ => Ok(None),
        }
    }

    /// Takes the word that begins an operand.
    fn begin_word(&mut self, word: Word) -> Option<Next> {
        match word {
            Word::Cong | Word::Ncong if self.open.may_begin_congruence() => {
                Some(Next::Open(Bracket::Congruence(Part::First)))
            }
            _ if !self.open.may_begin_formula() => None,
            Word::Not => {
                self.open.wants = Wants::Formula;
                Some(Next::Operand(Sign::May))
            }
            _ => self.begin_prime_word(word),
        }
    }

    /// Takes the word that begins a prime formula, but for a congruence.
    fn begin_prime_word(&mut self, word: Word) -> Option<Next> {
        match word {
            Word::True | Word::False => {
                self.operand = Operand::formula(self.taken);
                Some(Next::Behind)
            }
            Word::Ex | Word::All => Some(Next::Open(Bracket::Scope)),
            Word::Nnf | Word::Pnf | Word::Dnf | Word::Cnf => Some(Next::Prime(Argument::Alone)),
            Word::Simpl | Word::Qe => Some(Next::Prime(Argument::Given)),
            _ => None,
        }
    }

    /// Takes the first token of the argument of a command.
    fn begin_prime(&mut self, argument: Argument, terminal: &Terminal) -> Taken {
        match terminal {
            Terminal::Name(_) => {
                self.facts.formulas.push(self.taken)?;
                self.operand = Operand::formula(self.taken);
                Ok(Some(Next::Behind))
            }
            Terminal::Word(Word::Cong | Word::Ncong) => {
                Ok(Some(Next::Open(Bracket::Congruence(Part::First))))
            }
            Terminal::Word(word) => Ok(self.begin_prime_word(*word)),
            Terminal::Mark(Mark::Open) => {
                let bracket = match argument {
                    Argument::Alone => Bracket::Prime,
                    Argument::Given => Bracket::Argument,
                };
                self.push(Open::new(bracket, Wants::Formula))?;
                Ok(Some(Next::Operand(Sign::May)))
            }
            _ => Ok(None),
        }
    }

    /// Takes the parenthesis that opens this.
    fn open_bracket(&mut self, bracket: Bracket, terminal: &Terminal) -> Taken {
        let Terminal::Mark(Mark::Open) = terminal else {
            return Ok(None);
        };
        let (wants, next) = match bracket {
            Bracket::Scope => (Wants::Formula, Next::Binding),
            Bracket::Congruence(_) => (Wants::Term, Next::Operand(Sign::May)),
            Bracket::Certificate => (Wants::Comparison, Next::Brace(Atoms::Certified)),
            Bracket::Check => (Wants::Comparison, Next::Brace(Atoms::Checked)),
            Bracket::Problem => (Wants::Comparison, Next::Brace(Atoms::Weak)),
            _ => (Wants::Formula, Next::Operand(Sign::May)),
        };
        self.push(Open::new(bracket, wants))?;
        Ok(Some(next))
    }

    /// Takes the brace that opens these atoms.
    fn open_atoms(&mut self, atoms: Atoms, terminal: &Terminal) -> Taken {
        let Terminal::Mark(Mark::OpenBrace) = terminal else {
            return Ok(None);
        };
        let wants = match atoms {
            Atoms::Given | Atoms::Assumed => Wants::Atom,
            Atoms::Certified | Atoms::Checked | Atoms::Weak => Wants::Comparison,
        };
        self.push(Open::new(Bracket::Atoms(atoms), wants))?;
        Ok(Some(Next::FirstAtom(atoms)))
    }

    /// Takes a token between the parenthesis of a quantifier and its formula.
    fn bind(&mut self, terminal: &Terminal) -> Taken {
        let next = match (self.next, terminal) {
            (Next::Binding, Terminal::Name(_)) => {
                self.facts.quantified.push(self.taken)?;
                Next::ScopeComma
            }
            (Next::Bound, Terminal::Name(_)) => {
                self.facts.quantified.push(self.taken)?;
                Next::BoundBehind
            }
            (Next::Binding, Terminal::Mark(Mark::OpenBrace)) => Next::Bound,
            (Next::BoundBehind, Terminal::Mark(Mark::Comma)) => Next::Bound,
            (Next::BoundBehind, Terminal::Mark(Mark::CloseBrace)) => Next::ScopeComma,
            (Next::ScopeComma, Terminal::Mark(Mark::Comma)) => Next::Operand(Sign::May),
            _ => return Ok(None),
        };
        Ok(Some(next))
    }

    /// Takes an exponent.
    fn exponent(&mut self, terminal: &Terminal) -> Taken {
        let Terminal::Number(number) = terminal else {
            return Ok(None);
        };
        self.use_as_term()?;
        self.operand.kind = Kind::Term;
        self.operand.may_be_raised = false;
        match number {
            Literal::Fits(0) => {
                self.operand.has_name = false;
                self.operand.is_zero = false;
            }
            Literal::Fits(1) => (),
            _ if self.operand.has_name => note_first(&mut self.facts.factor, self.operand.first),
            _ => (),
        }
        Ok(Some(Next::Behind))
    }

    /// Takes the token behind an operand.
    fn behind(&mut self, terminal: &Terminal) -> Taken {
        if let Terminal::Mark(Mark::Power) = terminal {
            let may = self.operand.may_be_raised && self.operand.may_be_term();
            return Ok(if may { Some(Next::Exponent) } else { None });
        }
        self.end_factor();
        match terminal {
            Terminal::Mark(mark) => self.behind_mark(*mark),
            Terminal::Relation(relation) => self.compare(*relation),
            Terminal::Word(Word::Neq) => self.compare(Relation::Differs),
            Terminal::Word(Word::And | Word::Or | Word::Impl | Word::Repl | Word::Equiv) => {
                if !self.open.may_join() || !self.ends_formula()? {
                    return Ok(None);
                }
                self.open.begin(Wants::Formula);
                Ok(Some(Next::Operand(Sign::May)))
            }
            _ => Ok(None),
        }
    }

    /// Takes a sign behind an operand.
    fn behind_mark(&mut self, mark: Mark) -> Taken {
        match mark {
            Mark::Times => self.go_on(Factor::Multiplied),
            Mark::Slash => {
                note_first(&mut self.facts.slash, self.taken);
                self.go_on(Factor::Divided)
            }
            Mark::Plus | Mark::Minus => self.go_on(Factor::First),
            Mark::Comma => self.behind_comma(),
            Mark::Close => self.close(),
            Mark::CloseBrace => self.close_brace(),
            Mark::Semicolon | Mark::Dollar => {
                let ends = self.open.bracket == Bracket::Statement && self.ends_item()?;
                Ok(if ends { Some(Next::Nothing) } else { None })
            }
            Mark::Assign if self.taken == 1 && self.operand.kind == Kind::Name(0) => {
                self.open.begin(Wants::Formula);
                Ok(Some(Next::Operand(Sign::May)))
            }
            _ => Ok(None),
        }
    }

    /// Takes a sign between terms: the next factor stands so in its product.
    fn go_on(&mut self, factor: Factor) -> Taken {
        if !self.operand.may_be_term() {
            return Ok(None);
        }
        self.use_as_term()?;
        self.open.is_term = true;
        if factor == Factor::First {
            self.open.begin_product();
        }
        self.open.factor = factor;
        Ok(Some(Next::Operand(Sign::Taken)))
    }

    /// Takes a relation.
    fn compare(&mut self, relation: Relation) -> Taken {
        let may = self.operand.may_be_term()
            && self.open.may_compare()
            && is_taken(self.open.bracket, relation);
        if !may {
            return Ok(None);
        }
        self.use_as_term()?;
        self.open.begin_right();
        Ok(Some(Next::Operand(Sign::May)))
    }

    /// Takes a comma behind an operand.
    fn behind_comma(&mut self) -> Taken {
        if !self.ends_item()? {
            return Ok(None);
        }
        self.item = self.taken.saturating_add(1);
        let open = self.open;
        let next = match open.bracket {
            Bracket::Congruence(part) => {
                let Some(part) = part.next() else {
                    return Ok(None);
                };
                self.open = Open::new(Bracket::Congruence(part), Wants::Term);
                Next::Operand(Sign::May)
            }
            Bracket::Atoms(_) => {
                self.open.begin(open.wants);
                Next::Operand(Sign::May)
            }
            Bracket::Argument => Next::Brace(Atoms::Given),
            Bracket::Pointed => Next::PointBrace,
            Bracket::Grid => Next::AxisBrace,
            _ => return Ok(None),
        };
        Ok(Some(next))
    }

    /// Takes a closing parenthesis behind an operand.
    fn close(&mut self) -> Taken {
        if !self.ends_item()? {
            return Ok(None);
        }
        let next = match self.open.bracket {
            Bracket::Group => self.close_group(),
            Bracket::Prime | Bracket::Scope | Bracket::Argument => self.close_formula(),
            Bracket::Congruence(Part::Last) => {
                let is_zero = self.operand.is_zero && !self.open.is_term;
                if self.open.has_name || is_zero {
                    note_first(&mut self.facts.modulus, self.item);
                }
                self.close_formula()
            }
            Bracket::Problem => {
                self.pop();
                Next::End
            }
            _ => return Ok(None),
        };
        Ok(Some(next))
    }

    /// Takes a closing brace behind an operand.
    fn close_brace(&mut self) -> Taken {
        let Bracket::Atoms(atoms) = self.open.bracket else {
            return Ok(None);
        };
        if !self.ends_item()? {
            return Ok(None);
        }
        Ok(self.close_atoms(atoms))
    }

    /// Closes parentheses round a formula or a term.
    fn close_group(&mut self) -> Next {
        let open = self.open;
        let first = self.pop();
        self.operand = Operand::group(first, &open, &self.operand);
        Next::Behind
    }

    /// Closes parentheses of a formula.
    fn close_formula(&mut self) -> Next {
        let first = self.pop();
        self.operand = Operand::formula(first);
        Next::Behind
    }

    /// Closes the braces of these atoms.
    fn close_atoms(&mut self, atoms: Atoms) -> Option<Next> {
        self.pop();
        Some(match atoms {
            Atoms::Given | Atoms::Certified => Next::Close,
            Atoms::Assumed => Next::End,
            Atoms::Checked => Next::Comma(Then::Multipliers),
            Atoms::Weak => Next::Comma(Then::Target),
        })
    }

    /// Takes a token of a point, of axes, of multipliers, or of a statement without a formula.
    fn take_value(&mut self, terminal: &Terminal) -> Taken {
        match terminal {
            Terminal::Name(_) if matches!(self.next, Next::FirstEntry | Next::Entry) => {
                self.facts.entries.push(self.taken)?;
                Ok(Some(Next::EntryEqual))
            }
            Terminal::Name(_) if self.next == Next::AxisName => {
                self.facts.entries.push(self.taken)?;
                Ok(Some(Next::AxisComma))
            }
            Terminal::Number(Literal::Fits(0)) if matches!(self.next, Next::Denominator(_)) => {
                note_first(&mut self.facts.denominator, self.taken);
                Ok(self.next.behind(terminal))
            }
            Terminal::Mark(Mark::Close) if self.next == Next::Close => {
                if self.open.bracket == Bracket::Argument {
                    return Ok(Some(self.close_formula()));
                }
                self.pop();
                Ok(Some(Next::End))
            }
            Terminal::Mark(Mark::Comma) if self.next == Next::Comma(Then::Target) => {
                self.open.begin(Wants::Term);
                Ok(Some(Next::Operand(Sign::May)))
            }
            _ => Ok(self.next.behind(terminal)),
        }
    }

    /// The last factor of a product is whole.
    fn end_factor(&mut self) {
        let has_name = self.operand.has_name;
        match self.open.factor {
            Factor::Multiplied if has_name && self.open.product_has_name => {
                note_first(&mut self.facts.factor, self.operand.first);
            }
            Factor::Divided if has_name || self.operand.is_zero => {
                note_first(&mut self.facts.divisor, self.operand.first);
            }
            _ => (),
        }
        self.open.product_has_name = self.open.product_has_name || has_name;
        self.open.has_name = self.open.has_name || has_name;
    }

    /// Whether the last operand ends what may stand in the bracket, which it then does.
    fn ends_item(&mut self) -> Result<bool, AllocError> {
        match (self.open.wants, self.open.side) {
            (_, Side::Right) | (Wants::Term, _) => self.ends_term(),
            (Wants::Atom | Wants::Comparison, _) => Ok(self.operand.kind == Kind::Formula),
            (Wants::Either, _) if self.open.is_term => self.ends_term(),
            (Wants::Either, _) => Ok(true),
            (Wants::Formula | Wants::Query, _) => self.ends_formula(),
        }
    }

    /// Whether the last operand ends a formula, which it then is.
    fn ends_formula(&mut self) -> Result<bool, AllocError> {
        if self.open.side == Side::Right {
            return self.ends_term();
        }
        if self.open.is_term || !self.operand.may_be_formula() {
            return Ok(false);
        }
        if let Kind::Name(name) = self.operand.kind {
            self.facts.formulas.push(name)?;
        }
        Ok(true)
    }

    /// Whether the last operand is a term, which it then is.
    fn ends_term(&mut self) -> Result<bool, AllocError> {
        if !self.operand.may_be_term() {
            return Ok(false);
        }
        self.use_as_term()?;
        Ok(true)
    }

    /// The name that the last operand is, if it is one, stands in a term.
    fn use_as_term(&mut self) -> Result<(), AllocError> {
        if let Kind::Name(name) = self.operand.kind {
            self.facts.terms.push(name)?;
        }
        Ok(())
    }

    /// Opens a bracket with this token.
    fn push(&mut self, open: Open) -> Result<(), AllocError> {
        self.around.push((self.open, self.taken))?;
        self.open = open;
        Ok(())
    }

    /// Closes the inmost bracket, and gives the number of the token that opened it.
    fn pop(&mut self) -> usize {
        match self.around.pop() {
            Some((open, first)) => {
                self.open = open;
                first
            }
            None => 0,
        }
    }
}

/// Whether the relation may stand in this bracket.
fn is_taken(bracket: Bracket, relation: Relation) -> bool {
    match bracket {
        Bracket::Atoms(Atoms::Certified | Atoms::Checked) => relation != Relation::Differs,
        Bracket::Atoms(Atoms::Weak) => {
            matches!(
                relation,
                Relation::Equal | Relation::AtMost | Relation::AtLeast
            )
        }
        _ => true,
    }
}

/// Keeps the number of a token where none is kept.
fn note_first(kept: &mut Option<usize>, token: usize) {
    if kept.is_none() {
        *kept = Some(token);
    }
}
