ghost use Rattle.std.specs.Prelude.{◌≡◌, map};
ghost use Rattle.smt_language.specs.SExprs.{SExprTree, Group};
ghost use Rattle.smt_language.specs.SExprLists.{sexprs_of, leaf_of};
ghost use Rattle.smt_reader.specs.CodeTrees.{sexpr_tree, sexpr_trees, trees_of};
ghost use Rattle.smt_language.specs.SpelledShapes.{symbol_in, numeral_in, symbol_at, word_at, name_at, numeral_at, is_void};

use language_meaning::Literal;
use logic_meaning::Name;
use smt_language::{Leaf, SmtToken, Word};
use smt_tokens::word_of;

/// An S-expression. No more than 512 stand inside one another.
#[derive(Drop)]
#[cycle(sexpr)]
pub enum SExpr {
    Leaf(Leaf),
    /// What stands between two parentheses.
    Group(SExprs),
}

/// A list of S-expressions.
#[derive(Drop)]
#[cycle(sexpr)]
pub struct SExprs {
    pub(crate) list: Vec<SExpr>,
}

impl SExpr {
    /// The S-expression of these between two parentheses.
    #[tactic(auto, using(crate::proofs::TreeEquations::trees))]
    pub fn group(list: Vec<SExpr>) -> SExpr
        ensures { sexpr_tree result ≡ Group (trees_of list.items) }
    {
        SExpr::Group(SExprs { list })
    }

    /// The text of a symbol.
    #[tactic(auto, using(crate::proofs::TreeEquations::trees))]
    pub fn symbol(&self) -> Option<Name>
        ensures { result ≡ symbol_at (sexpr_tree self.now) }
    {
        match self {
            SExpr::Leaf(leaf) => leaf.symbol(),
            SExpr::Group(_) => None,
        }
    }

    /// What a reserved symbol is.
    #[tactic(auto, using(crate::proofs::Options::options))]
    pub fn word(&self) -> Option<Word>
        ensures { result ≡ word_at (sexpr_tree self.now) }
    {
        let symbol = self.symbol()?;
        word_of(symbol.bytes())
    }

    /// A symbol that may be a name.
    #[tactic(auto, using(crate::proofs::Options::options))]
    pub fn name(&self) -> Option<Name>
        ensures { result ≡ name_at (sexpr_tree self.now) }
    {
        let symbol = self.symbol()?;
        if word_of(symbol.bytes()).is_some() {
            return None;
        }
        Some(symbol)
    }

    /// The number of a numeral.
    #[tactic(auto, using(crate::proofs::TreeEquations::trees))]
    pub fn numeral(&self) -> Option<Literal>
        ensures { result ≡ numeral_at (sexpr_tree self.now) }
    {
        match self {
            SExpr::Leaf(leaf) => leaf.numeral(),
            SExpr::Group(_) => None,
        }
    }

    /// Whether it is two parentheses with nothing between them.
    #[tactic(auto, using(crate::proofs::TreeEquations::trees))]
    pub fn is_void(&self) -> bool
        ensures { result ≡ is_void (sexpr_tree self.now) }
    {
        match self {
            SExpr::Leaf(_) => false,
            SExpr::Group(members) => members.list.is_empty(),
        }
    }
}
