ghost use Rattle.std.specs.Prelude.{◌≡◌, ℕ, List, IfOk};
ghost use Rattle.std.specs.Option.{ForSome};
ghost use Rattle.linear_forms.specs.Combinations.{IsLinear};
ghost use Rattle.written_syntax.specs.Proper.{IsProperTerm};
ghost use Rattle.language_meaning.specs.Trees.{TermTree, Compare};
ghost use Rattle.written_syntax.specs.CodeTrees.{term_tree};
ghost use Rattle.language_meaning.specs.Value.{relation_of as written_relation};
ghost use Rattle.formula_laws.specs.TheoryAtoms.{AtomIn};
ghost use Rattle.logic_meaning.specs.NormalForm.{normal_atom};
ghost use Rattle.normal_atoms.specs.Atoms.{context_of, relation_of, atom_of, IsWellFormed, IsWellFormedNormal};
ghost use Rattle.language_meaning.specs.Resolving.{BoundTrees};
ghost use Rattle.logic_meaning.specs.Names.{place};
ghost use Rattle.written_atoms.specs.Atom.{IsNormalWithin, IsCompared, IsCongruenceMade};
ghost use Rattle.written_atoms.specs.Read.{IsRead, congruence_tree};
ghost use Rattle.written_atoms.specs.Term.{IsTermRead, IsDifferenceRead};

use crate::rational::Rational;
use crate::term::{ReadTerm, read_difference, read_term};
use formula_tree::Names;
use language_meaning::Relation;
use normal_atoms::{Atom, AtomError, Context, Normal, Rel, normal};
use std::alloc::{AllocError, Global};
use written_syntax::Term;

/// Which causes of a refusal stand in a written comparison or congruence.
#[derive(Clone, Copy, Debug, PartialEq, Eq)]
pub struct AtomCauses {
    /// A product multiplies names, or a power above 1 has a base that is not constant.
    pub nonlinear: bool,
    /// A divisor is no constant other than 0, or over the integers a quotient stands there.
    pub division: bool,
    /// The modulus is no constant other than 0.
    pub modulus: bool,
    /// A literal is past the limit, a form is not there, or the normal atom passes the limit.
    pub overflow: bool,
}

/// A written comparison or congruence as it is read: the causes of a refusal, and its normal atom or constant.
#[derive(Drop)]
pub struct ReadAtom {
    pub causes: AtomCauses,
    pub normal: Option<Normal>,
}

// How a written comparison compares.
fn relation_to_zero(relation: Relation) -> Rel
    ensures { relation_of result ≡ written_relation relation }
{
    match relation {
        Relation::Equal => Rel::Equal,
        Relation::Differs => Rel::Differs,
        Relation::Less => Rel::Less,
        Relation::AtMost => Rel::AtMost,
        Relation::Greater => Rel::Greater,
        Relation::AtLeast => Rel::AtLeast,
    }
}

// The normal form of an atom, `None` exactly where its constant passes the limit.
fn normal_within(alloc: Global, context: Context, atom: Atom) -> Result<Option<Normal>, AllocError>
    requires well_formed { IsWellFormed atom }
    requires in_context { AtomIn (context_of context) (atom_of atom) }
    ensures { IfOk result (IsNormalWithin (normal_atom (context_of context) (atom_of atom))) }
{
    match normal(alloc, context, atom) {
        Ok(normal) => Ok(Some(normal)),
        Err(AtomError::Overflow) => Ok(None),
        Err(AtomError::Memory) => Err(AllocError),
    }
}

// The comparison of a form with 0, `None` exactly where the form is not there or the normal form passes the limit.
fn compared(
    alloc: Global,
    context: Context,
    relation: Relation,
    difference: Option<Rational>,
) -> Result<Option<Normal>, AllocError>
    requires { ForSome difference (λ v. IsLinear v.form) }
    ensures { IfOk result (IsCompared (context_of context) relation difference) }
{
    match difference {
        None => Ok(None),
        Some(difference) => {
            let atom = Atom::Compare(relation_to_zero(relation), difference.into_form());
            normal_within(alloc, context, atom)
        }
    }
}

// The congruence of a form with 0, over the integers, where the form is there and the modulus is a constant other than 0.
fn congruent(
    alloc: Global,
    context: Context,
    holds: bool,
    difference: Option<Rational>,
    modulus: Option<Rational>,
) -> Result<Option<Normal>, AllocError>
    requires { ForSome difference (λ v. IsLinear v.form) }
    ensures { IfOk result (IsCongruenceMade (context_of context) holds difference modulus) }
{
    let (Context::Integers, Some(difference), Some(modulus)) = (context, difference, modulus) else {
        return Ok(None);
    };
    if !modulus.is_divisor() {
        return Ok(None);
    }
    let modulus = modulus.constant_part().numerator.abs();
    let form = difference.into_form();
    normal_within(
        alloc,
        context,
        Atom::Congruent {
            holds,
            modulus,
            form,
        },
    )
}

/// Reads a comparison: both sides become one form by the fraction rule, and that the normal atom. Names have their
/// numbers. An `Err` is want of memory.
pub fn read_comparison(
    alloc: Global,
    context: Context,
    names: &Names,
    relation: Relation,
    left: &Term,
    right: &Term,
) -> Result<ReadAtom, AllocError>
    requires left_proper { IsProperTerm (term_tree left.now) }
    requires right_proper { IsProperTerm (term_tree right.now) }
    ensures { IfOk result (λ r. (bound : BoundTrees) → IsRead (context_of context) bound (place names.now) (Compare relation (term_tree left.now) (term_tree right.now)) r) }
{
    let difference = read_difference(alloc, context, names, left, right)?;
    comparison_of(alloc, context, relation, difference)
}

/// What is read of the comparison of two terms whose difference was read. An `Err` is want of memory.
pub fn comparison_of(
    alloc: Global,
    context: Context,
    relation: Relation,
    difference: ReadTerm,
) -> Result<ReadAtom, AllocError>
    requires { ForSome difference.form (λ v. IsLinear v.form) }
    ensures read { IfOk result (λ r. (bound : BoundTrees) (number : List ℕ → ℕ) (s t : TermTree) → IsDifferenceRead (context_of context) number s t difference → IsRead (context_of context) bound number (Compare relation s t) r) }
    ensures proper { IfOk result (λ r. ForSome r.normal IsWellFormedNormal) }
{
    let nonlinear = difference.nonlinear;
    let division = difference.division;
    let normal = compared(alloc, context, relation, difference.into_form())?;
    Ok(ReadAtom {
        causes: AtomCauses {
            nonlinear,
            division,
            modulus: false,
            overflow: normal.is_none(),
        },
        normal,
    })
}

/// Reads the congruence of two terms modulo a third, or for false its negation. Names have their numbers. An `Err` is
/// want of memory.
pub fn read_congruence(
    alloc: Global,
    context: Context,
    names: &Names,
    holds: bool,
    left: &Term,
    right: &Term,
    modulus: &Term,
) -> Result<ReadAtom, AllocError>
    requires left_proper { IsProperTerm (term_tree left.now) }
    requires right_proper { IsProperTerm (term_tree right.now) }
    requires modulus_proper { IsProperTerm (term_tree modulus.now) }
    ensures { IfOk result (λ r. (bound : BoundTrees) → IsRead (context_of context) bound (place names.now) (congruence_tree holds (term_tree left.now) (term_tree right.now) (term_tree modulus.now)) r) }
{
    let difference = read_difference(alloc, context, names, left, right)?;
    let modulus = read_term(alloc, context, names, modulus)?;
    congruence_of(alloc, context, holds, difference, modulus)
}

/// What is read of the congruence of two terms whose difference was read, or for false of its negation. An `Err` is want
/// of memory.
pub fn congruence_of(
    alloc: Global,
    context: Context,
    holds: bool,
    difference: ReadTerm,
    modulus: ReadTerm,
) -> Result<ReadAtom, AllocError>
    requires { ForSome difference.form (λ v. IsLinear v.form) }
    ensures read { IfOk result (λ r. (bound : BoundTrees) (number : List ℕ → ℕ) (s t m : TermTree) → IsDifferenceRead (context_of context) number s t difference → IsTermRead (context_of context) number m modulus → IsRead (context_of context) bound number (congruence_tree holds s t m) r) }
    ensures proper { IfOk result (λ r. ForSome r.normal IsWellFormedNormal) }
{
    let causes = AtomCauses {
        nonlinear: difference.nonlinear | modulus.nonlinear,
        division: difference.division | modulus.division,
        modulus: modulus.is_no_divisor(),
        overflow: difference.form.is_none() | modulus.form.is_none(),
    };
    let normal = congruent(
        alloc,
        context,
        holds,
        difference.into_form(),
        modulus.into_form(),
    )?;
    Ok(ReadAtom { causes, normal })
}
