ghost use Rattle.std.specs.Prelude.{◌≡◌, Some, None, map, IfOk, IfErr, OnOk, MatchOption};
ghost use Rattle.smt_reader.specs.CodeTrees.{sexpr_tree, trees_of};
ghost use Rattle.smt_language.specs.SpelledShapes.{two_of, each_of};
ghost use Rattle.smt_language.specs.Bindings.{binding_at, bound_name, bind_apart, are_bindings, sorted, sorted_name, scope_of};
ghost use Rattle.smt_reader.specs.Refuses.{Refuses};

use crate::refusal::Refusal;
use crate::sexpr::SExpr;
use logic_meaning::Name;
use smt_language::SortedName;
use smt_tokens::SortedNames;
use std::alloc::{AllocError, Global};
use std::collections::BTreeSet;

/// The names that a quantifier binds, each with its sort.
#[tactic(auto, using(crate::proofs::Options::options))]
pub fn scope(alloc: Global, bindings: &[SExpr]) -> Result<SortedNames, Refusal>
    ensures read { IfOk result (λ names. scope_of (trees_of bindings.now) ≡ Some names) }
    ensures refused { IfErr result (λ e. Refuses e (scope_of (trees_of bindings.now) ≡ None)) }
{
    if !are_bindings(alloc, bindings)? {
        return Err(Refusal::Syntax);
    }
    let names = sorted_names(alloc, bindings)?;
    Ok(SortedNames::of(names))
}

/// Whether there is a binding at least, each binds a name, and no two bind the same one.
pub fn are_bindings(alloc: Global, bindings: &[SExpr]) -> Result<bool, AllocError>
    ensures { IfOk result (λ b. b ≡ are_bindings (trees_of bindings.now)) }
{
    if bindings.is_empty() {
        return Ok(false);
    }
    bind_apart(alloc, bindings)
}

/// Whether each binds a name, and no two bind the same one.
fn bind_apart(alloc: Global, bindings: &[SExpr]) -> Result<bool, AllocError>
    ensures { IfOk result (λ b. b ≡ bind_apart (trees_of bindings.now)) }
{
    let mut seen = BTreeSet::new(alloc);
    'bindings: for binding in bindings {
        let Some(name) = bound_name(binding) else {
            return Ok(false);
        };
        if !seen.insert(name)? {
            return Ok(false);
        }
    }
    Ok(true)
}

/// The name that a binding binds.
#[tactic(auto, using(crate::proofs::Options::options))]
fn bound_name(binding: &SExpr) -> Option<Name>
    ensures { result ≡ bound_name (sexpr_tree binding.now) }
{
    let (name, _) = pair(binding)?;
    name.name()
}

/// The two members of a binding.
#[tactic(auto, using(crate::proofs::TreeEquations::trees, crate::proofs::Options::options))]
fn pair(binding: &SExpr) -> Option<(&SExpr, &SExpr)>
    ensures { MatchOption result (binding_at (sexpr_tree binding.now) ≡ None) (λ p. binding_at (sexpr_tree binding.now) ≡ Some (sexpr_tree p.0.now, sexpr_tree p.1.now)) }
{
    let SExpr::Group(parts) = binding else {
        return None;
    };
    two(&parts.list)
}

/// The two that these are, where they are no more and no fewer.
pub fn two(parts: &[SExpr]) -> Option<(&SExpr, &SExpr)>
    ensures { MatchOption result (two_of (trees_of parts.now) ≡ None) (λ p. two_of (trees_of parts.now) ≡ Some (sexpr_tree p.0.now, sexpr_tree p.1.now)) }
{
    let [first, second] = parts else {
        return None;
    };
    Some((first, second))
}

/// What the bindings of a quantifier say.
fn sorted_names(alloc: Global, bindings: &[SExpr]) -> Result<Vec<SortedName>, Refusal>
    ensures read { IfOk result (λ names. each_of sorted_name (trees_of bindings.now) ≡ Some names.items) }
    ensures refused { IfErr result (λ e. Refuses e (each_of sorted_name (trees_of bindings.now) ≡ None)) }
{
    let mut names = Vec::new(alloc);
    'bindings: for binding in bindings {
        let Some(name) = sorted_name(binding) else {
            return Err(Refusal::Syntax);
        };
        names.push(name)?;
    }
    Ok(names)
}

/// What a binding of a quantifier says.
#[tactic(auto, using(crate::proofs::Options::options))]
fn sorted_name(binding: &SExpr) -> Option<SortedName>
    ensures { result ≡ sorted_name (sexpr_tree binding.now) }
{
    let (name, sort) = pair(binding)?;
    sorted(name, sort)
}

/// A name with the name of its sort.
#[tactic(auto, using(crate::proofs::Options::options))]
pub fn sorted(name: &SExpr, sort: &SExpr) -> Option<SortedName>
    ensures { result ≡ sorted (sexpr_tree name.now, sexpr_tree sort.now) }
{
    let name = name.name()?;
    let sort = sort.symbol()?;
    Some(SortedName { name, sort })
}
