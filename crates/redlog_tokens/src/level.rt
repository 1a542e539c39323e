ghost use Rattle.std.specs.Prelude.{◌≡◌, suc, ◌+◌, ◌≤◌, List, [], ◌∷◌, IfOk, OnOk, if◌then◌else◌};
ghost use Rattle.std.specs.Bool.{MatchBool};
ghost use Rattle.language_meaning.specs.declared.terminal.Terminal.{Terminal};
ghost use Rattle.language_meaning.specs.Levels.{weight, after, change_of, changed, closing, Passes};
ghost use Rattle.redlog_tokens.specs.Counting.{AreLevels, IsSmall, IsTotal, stack, count, is_binder, is_of_run};

use language_meaning::{Change, Group, LEVEL_LIMIT, Mark, Terminal, Word};
use std::alloc::{AllocError, Global};

/// What the tokens so far leave open.
#[derive(Drop)]
pub struct Levels {
    // The open groups around the inmost one, that one last which is directly around it.
    pub around: Vec<Group>,
    pub inmost: Group,
    // What counts in the groups around.
    pub total: usize,
    // The words of the run that ends at the last token.
    pub run: usize,
    // The words of the run just before a binder that is the last token.
    pub held: usize,
}

/// Whether the level of some token passes 512.
pub fn is_deep(alloc: Global, terminals: &[Terminal]) -> Result<bool, AllocError>
    ensures { IfOk result (λ deep. MatchBool deep (Passes LEVEL_LIMIT [] terminals.now) (Passes LEVEL_LIMIT [] terminals.now → ⊥)) }
{
    let mut levels = Levels::new(alloc);
    'terminals: for terminal in terminals {
        levels.take(terminal)?;
        if levels.level() > LEVEL_LIMIT {
            return Ok(true);
        }
    }
    Ok(false)
}

impl Levels {
    /// Before the first token.
    fn new(alloc: Global) -> Levels
        ensures small { IsSmall result }
        ensures levels { AreLevels result [] }
    {
        Levels {
            around: Vec::new(alloc),
            inmost: Group {
                opened: 0,
                arrows: 0,
                slashes: 0,
            },
            total: 0,
            run: 0,
            held: 0,
        }
    }

    /// The level of the last token.
    fn level(&self) -> usize
        requires { count self.now ≤ 1538 }
        ensures { result ≡ count self.now }
    {
        self.total + weight(&self.inmost) + self.run
    }

    /// Takes one more token.
    fn take(&mut self, terminal: &Terminal) -> Result<(), AllocError>
        requires { IsSmall self.old }
        ensures total { OnOk result (IsTotal self.new) }
        ensures bound { OnOk result (count self.new ≤ 1538) }
        ensures held { OnOk result (self.new.held ≤ 512) }
        ensures taken { OnOk result ((before : List Terminal) → AreLevels self.old before → AreLevels self.new (terminal.now ∷ before)) }
    {
        self.regroup(terminal)?;
        let run = self.run;
        self.held = held_after(terminal, run);
        self.run = run_after(terminal, run);
        Ok(())
    }

    /// Changes the open groups for one more token.
    fn regroup(&mut self, terminal: &Terminal) -> Result<(), AllocError>
        requires { IsSmall self.old }
        ensures run { OnOk result (self.new.run ≡ self.old.run) }
        ensures held { OnOk result (self.new.held ≡ self.old.held) }
        ensures total { OnOk result (IsTotal self.new) }
        ensures bound { OnOk result (self.new.total + weight self.new.inmost ≤ 1025) }
        ensures stack { OnOk result (stack self.new ≡ changed (change_of terminal.now) (self.old.run + self.old.held) terminal.now (stack self.old)) }
    {
        match change_of(terminal) {
            Change::Opens => self.open(),
            Change::Closes => {
                self.close();
                Ok(())
            }
            Change::Inside => {
                let inmost = after(terminal, self.inmost);
                self.inmost = inmost;
                Ok(())
            }
        }
    }

    /// Opens a group.
    fn open(&mut self) -> Result<(), AllocError>
        requires { IsSmall self.old }
        ensures run { OnOk result (self.new.run ≡ self.old.run) }
        ensures held { OnOk result (self.new.held ≡ self.old.held) }
        ensures total { OnOk result (IsTotal self.new) }
        ensures bound { OnOk result (self.new.total + weight self.new.inmost ≤ 1025) }
        ensures stack { OnOk result (stack self.new ≡ record { opened = suc (self.old.run + self.old.held); arrows = 0; slashes = 0 } ∷ stack self.old) }
    {
        let group = self.inmost;
        self.around.push(group)?;
        self.total += weight(&group);
        let opened = self.run + self.held + 1;
        self.inmost = Group {
            opened,
            arrows: 0,
            slashes: 0,
        };
        Ok(())
    }

    /// Closes the inmost group. What stands outside all brackets is not closed.
    fn close(&mut self)
        requires { IsSmall self.old }
        ensures run { self.new.run ≡ self.old.run }
        ensures held { self.new.held ≡ self.old.held }
        ensures total { IsTotal self.new }
        ensures bound { self.new.total + weight self.new.inmost ≤ 512 }
        ensures stack { stack self.new ≡ closing (stack self.old) }
    {
        match self.around.pop() {
            Some(group) => {
                self.total -= weight(&group);
                self.inmost = group;
            }
            None => self.inmost.slashes = 0,
        }
    }
}

/// How the token changes the open groups.
fn change_of(terminal: &Terminal) -> Change
    ensures { result ≡ change_of terminal.now }
{
    match terminal {
        Terminal::Mark(Mark::Open | Mark::OpenBrace) => Change::Opens,
        Terminal::Mark(Mark::Close | Mark::CloseBrace) => Change::Closes,
        _ => Change::Inside,
    }
}

/// The run before a binder, where the token is one.
fn held_after(terminal: &Terminal, run: usize) -> usize
    ensures { result ≡ (if is_binder terminal.now then run else 0) }
{
    match terminal {
        Terminal::Word(Word::Ex | Word::All) => run,
        _ => 0,
    }
}

/// The run that ends at the token.
fn run_after(terminal: &Terminal, run: usize) -> usize
    requires { run ≤ 512 }
    ensures { result ≡ (if is_of_run terminal.now then run + 1 else 0) }
{
    match terminal {
        Terminal::Word(
            Word::Not | Word::Nnf | Word::Pnf | Word::Dnf | Word::Cnf | Word::Simpl | Word::Qe,
        ) => run + 1,
        _ => 0,
    }
}

/// What counts in the group.
fn weight(group: &Group) -> usize
    requires { weight group.now ≤ 1538 }
    ensures { result ≡ weight group.now }
{
    group.opened + group.arrows + group.slashes
}

/// An open group after one more token that is no bracket.
fn after(terminal: &Terminal, group: Group) -> Group
    requires { weight group ≤ 512 }
    ensures after { result ≡ after terminal.now group }
    ensures bound { weight result ≤ 513 }
{
    let Group {
        opened,
        arrows,
        slashes,
    } = group;
    let (arrows, slashes) = match terminal {
        Terminal::Number(_) | Terminal::Name(_) => (arrows, slashes),
        Terminal::Relation(_) => (arrows, 0),
        Terminal::Mark(mark) => match mark {
            Mark::Times | Mark::Power => (arrows, slashes),
            Mark::Slash => (arrows, slashes + 1),
            Mark::Comma => (0, 0),
            _ => (arrows, 0),
        },
        Terminal::Word(Word::Impl | Word::Repl | Word::Equiv) => (arrows + 1, 0),
        Terminal::Word(_) => (arrows, 0),
    };
    Group {
        opened,
        arrows,
        slashes,
    }
}
