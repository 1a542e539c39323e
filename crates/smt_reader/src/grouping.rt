ghost use Rattle.std.specs.Prelude.{◌≡◌, List, Some, None, [], ◌∷◌, map, reverse, IfOk, IfErr, OnOk};
ghost use Rattle.smt_language.specs.declared.token.SmtToken.TheVariants.{Open};
ghost use Rattle.smt_language.specs.SExprs.{SExprTrees, Group, written};
ghost use Rattle.smt_language.specs.SExprLists.{leaf_of};
ghost use Rattle.smt_reader.specs.CodeTrees.{sexpr_tree, trees_of};
ghost use Rattle.smt_reader.specs.Grouping.{grouped, step, put, opened, closed, leaf_put, Fails};
ghost use Rattle.smt_reader.specs.OpenGroups.{open_of, reached_of};
ghost use Rattle.smt_language.specs.Faults.{kinds};
ghost use Rattle.smt_reader.specs.Refuses.{Refuses};

use crate::refusal::Refusal;
use crate::sexpr::SExpr;
use smt_language::{Leaf, SmtLexeme, SmtToken};
use std::alloc::{AllocError, Global};

/// What is open: the members so far of the inmost group, and of those around it, the one last that is directly around.
#[derive(Drop)]
pub struct OpenGroups {
    pub inmost: Vec<SExpr>,
    pub around: Vec<Vec<SExpr>>,
}

/// What a token leads to.
#[derive(Drop)]
pub enum Reached {
    Goes(OpenGroups),
    /// The members of the outermost group.
    Ends(Vec<SExpr>),
}

/// What stands between the first parenthesis and the last, where the tokens are one group.
pub fn members(alloc: Global, tokens: &[SmtLexeme]) -> Result<Vec<SExpr>, Refusal>
    ensures members { IfOk result (λ list. written (Group (trees_of list.items)) [] ≡ kinds tokens.now) }
    ensures refused { IfErr result (λ e. Refuses e ((ss : SExprTrees) → written (Group ss) [] ≡ kinds tokens.now → ⊥)) }
{
    let Some((first, rest)) = tokens.split_first() else {
        return Err(Refusal::Syntax);
    };
    match first.token {
        SmtToken::Open => grouped(alloc, rest),
        _ => Err(Refusal::Syntax),
    }
}

/// What stands between an opening parenthesis before these tokens and the last of them, where that closes it.
fn grouped(alloc: Global, tokens: &[SmtLexeme]) -> Result<Vec<SExpr>, Refusal>
    ensures members { IfOk result (λ list. grouped (record { inmost = []; around = [] }) (kinds tokens.now) ≡ Some (trees_of list.items)) }
    ensures refused { IfErr result (λ e. Refuses e (grouped (record { inmost = []; around = [] }) (kinds tokens.now) ≡ None)) }
{
    let mut open = OpenGroups::new(alloc);
    let mut left = tokens;
    'tokens: while let Some((lexeme, rest)) = left.split_first() {
        match open.take(alloc, lexeme.token)? {
            Reached::Goes(then) => open = then,
            Reached::Ends(members) if rest.is_empty() => return Ok(members),
            Reached::Ends(_) => return Err(Refusal::Syntax),
        }
        left = rest;
    }
    Err(Refusal::Syntax)
}

impl OpenGroups {
    /// A group without a member so far, and none around it.
    fn new(alloc: Global) -> OpenGroups
        ensures { open_of result ≡ record { inmost = []; around = [] } }
    {
        OpenGroups {
            inmost: Vec::new(alloc),
            around: Vec::new(alloc),
        }
    }

    /// One more token.
    fn take(self, alloc: Global, token: SmtToken) -> Result<Reached, Refusal>
        ensures taken { IfOk result (λ r. step (open_of self) token ≡ reached_of r) }
        ensures refused { IfErr result (λ e. Refuses e (step (open_of self) token ≡ Fails)) }
    {
        match token {
            SmtToken::Open => Ok(Reached::Goes(self.opened(alloc)?)),
            SmtToken::Close => Ok(self.closed()?),
            _ => self.leaf_put(token),
        }
    }

    /// One more token that is no parenthesis.
    fn leaf_put(self, token: SmtToken) -> Result<Reached, Refusal>
        ensures taken { IfOk result (λ r. leaf_put (leaf_of token) (open_of self) ≡ reached_of r) }
        ensures refused { IfErr result (λ e. Refuses e (leaf_put (leaf_of token) (open_of self) ≡ Fails)) }
    {
        let Some(leaf) = Leaf::of(token) else {
            return Err(Refusal::Syntax);
        };
        let OpenGroups { mut inmost, around } = self;
        inmost.push(SExpr::Leaf(leaf))?;
        Ok(Reached::Goes(OpenGroups { inmost, around }))
    }

    /// A group more.
    fn opened(self, alloc: Global) -> Result<OpenGroups, AllocError>
        ensures { IfOk result (λ o. open_of o ≡ opened (open_of self)) }
    {
        let OpenGroups { inmost, mut around } = self;
        around.push(inmost)?;
        Ok(OpenGroups {
            inmost: Vec::new(alloc),
            around,
        })
    }

    /// The inmost group is closed.
    fn closed(self) -> Result<Reached, AllocError>
        ensures { IfOk result (λ r. reached_of r ≡ closed (open_of self).inmost (open_of self).around) }
    {
        let OpenGroups { inmost, mut around } = self;
        let Some(mut outer) = around.pop() else {
            return Ok(Reached::Ends(inmost));
        };
        outer.push(SExpr::group(inmost))?;
        Ok(Reached::Goes(OpenGroups {
            inmost: outer,
            around,
        }))
    }
}
