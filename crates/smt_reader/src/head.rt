ghost use Rattle.std.specs.Prelude.{◌≡◌};
ghost use Rattle.smt_reader.specs.CodeTrees.{sexpr_tree, trees_of};
ghost use Rattle.smt_language.specs.Expressions.{takes, word_head, divisor_head, group_head, head_of};

use crate::sexpr::SExpr;
use language_meaning::Literal;
use logic_meaning::Quantifier;
use smt_language::{Head, Operator, Word};

/// What the S-expression is at the front of others.
#[tactic(auto, using(crate::proofs::TreeEquations::trees))]
pub fn head_of(sexpr: &SExpr) -> Option<Head>
    ensures { result ≡ head_of (sexpr_tree sexpr.now) }
{
    match sexpr {
        SExpr::Leaf(_) => word_head(sexpr.word()),
        SExpr::Group(parts) => group_head(&parts.list),
    }
}

/// What a reserved symbol is there.
fn word_head(word: Option<Word>) -> Option<Head>
    ensures { result ≡ word_head word }
{
    match word? {
        Word::Operator(operator) => Some(Head::Operator(operator)),
        Word::Quantifier(quantifier) => Some(Head::Quantifier(quantifier)),
        Word::Let => Some(Head::Let),
        _ => None,
    }
}

/// What a group of these is there: `(_ divisible n)`.
fn group_head(parts: &[SExpr]) -> Option<Head>
    ensures { result ≡ group_head (trees_of parts.now) }
{
    let [underscore, divisible, divisor] = parts else {
        return None;
    };
    divisor_head(underscore.word(), divisible.word(), divisor.numeral())
}

/// What `_`, `divisible` and a number are there, which is not 0.
fn divisor_head(
    underscore: Option<Word>,
    divisible: Option<Word>,
    divisor: Option<Literal>,
) -> Option<Head>
    ensures { result ≡ divisor_head underscore divisible divisor }
{
    match (underscore, divisible, divisor) {
        (_, _, Some(Literal::Fits(0))) => None,
        (Some(Word::Underscore), Some(Word::Divisible), Some(divisor)) => {
            Some(Head::Divisible(divisor))
        }
        _ => None,
    }
}

/// Whether the operator takes so many members.
pub fn takes(operator: Operator, count: usize) -> bool
    ensures { result ≡ takes operator count }
{
    match operator {
        Operator::Not => count == 1,
        Operator::And | Operator::Or | Operator::Minus => count >= 1,
        Operator::Divided => count == 2,
        Operator::Implies
        | Operator::Equal
        | Operator::Less
        | Operator::AtMost
        | Operator::Greater
        | Operator::AtLeast
        | Operator::Distinct
        | Operator::Plus
        | Operator::Times => count >= 2,
    }
}
