//! What is chosen before a formula.

ghost use Rattle.std.specs.Prelude.{◌≡◌, ◌<◌, ℕ, false, IfOk, vec_len, nat_eq};
ghost use Rattle.logic_meaning.specs.Shape.{is_in};
ghost use Rattle.logic_meaning.specs.Tree.{IsFree, tree_names};
ghost use Rattle.nnf_trees.specs.Nnfs.{nnf_of};
ghost use Rattle.prenex_forms.specs.Named.{now_of};
ghost use Rattle.prenex_forms.specs.Chosen.{flag};

use crate::chooser::Chooser;
use crate::free::mark_free;
use nnf_trees::Nnf;
use std::alloc::{AllocError, Global};

/// The chooser before the formula, whose free names are taken. There are so many names.
pub(crate) fn start(alloc: Global, f: &Nnf, count: usize) -> Result<Chooser, AllocError>
    requires { (x : ℕ) → IsFree (nnf_of f.now) x → x < count }
    ensures taken { IfOk result (λ c. (x : ℕ) → flag c.taken.items x ≡ is_in nat_eq x (tree_names (nnf_of f.now))) }
    ensures made { IfOk result (λ c. c.made ≡ 0) }
    ensures now { IfOk result (λ c. (x : ℕ) → now_of c.now.items x ≡ x) }
    ensures count { IfOk result (λ c. c.count ≡ count) }
{
    let taken = flags(alloc, f, count)?;
    let now = numbers(alloc, count)?;
    Ok(Chooser {
        count,
        made: 0,
        taken,
        now,
    })
}

// Which of so many names are free in the formula.
fn flags(alloc: Global, f: &Nnf, count: usize) -> Result<Vec<bool>, AllocError>
    requires { (x : ℕ) → IsFree (nnf_of f.now) x → x < count }
    ensures flags { IfOk result (λ v. (x : ℕ) → flag v.items x ≡ is_in nat_eq x (tree_names (nnf_of f.now))) }
    ensures count { IfOk result (λ v. vec_len v ≡ count) }
{
    let mut hidden = no_marks(alloc, count)?;
    let mut marks = no_marks(alloc, count)?;
    mark_free(f, &mut hidden, &mut marks);
    Ok(marks)
}

// So many names, none of them marked.
fn no_marks(alloc: Global, count: usize) -> Result<Vec<bool>, AllocError>
    ensures none { IfOk result (λ v. (x : ℕ) → flag v.items x ≡ false) }
    ensures count { IfOk result (λ v. vec_len v ≡ count) }
{
    let mut marks = Vec::new(alloc);
    for _ in 0..count {
        marks.push(false)?;
    }
    Ok(marks)
}

// The numbers below this one.
fn numbers(alloc: Global, count: usize) -> Result<Vec<usize>, AllocError>
    ensures numbers { IfOk result (λ v. (x : ℕ) → now_of v.items x ≡ x) }
    ensures count { IfOk result (λ v. vec_len v ≡ count) }
{
    let mut numbers = Vec::new(alloc);
    for number in 0..count {
        numbers.push(number)?;
    }
    Ok(numbers)
}
