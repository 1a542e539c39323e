//! The case list of a formula of a store, in the one way or in the other.

ghost use Rattle.std.specs.Prelude.{◌≤◌, map, IfOk, IfErr};
ghost use Rattle.std.specs.List.{AllByRecursion};
ghost use Rattle.logic_meaning.specs.Every.{Every};
ghost use Rattle.logic_meaning.specs.Some.{EachOf};
ghost use Rattle.normal_atoms.specs.Atoms.{context_of, atom_of, IsWellFormed};
ghost use Rattle.logic_meaning.specs.NormalForm.{IsNormal};
ghost use Rattle.reference_engine.specs.Case.{case_seen, HavePoints};
ghost use Rattle.formula_tree.specs.Makers.{Keeps};
ghost use Rattle.formula_store.specs.Nodes.{tree, IsId};
ghost use Rattle.form_commands.specs.Faults.{CasesFault};
ghost use Rattle.form_commands.specs.Cases.{AreCasesFor, AreCasesBy};
ghost use Rattle.form_commands.specs.Lowest.{AreLowest, AreLowestBy};

use crate::error::{FormsError, measured_error};
use crate::forms::Premised;
use crate::guards::left_guards;
use crate::lowest::lowest_cases;
use crate::references::reference_list;
use crate::way::Way;
use engine_answers::Engine;
use formula_store::{FormulaId, Store};
use normal_atoms::Atom;
use qe_parallel::Gate;
use reference_engine::PrintedCase;
use std::thread::Threads;

/// The cases of what was read, found in this way, with their guards simplified under the atoms, and without those whose guard becomes
/// false. Those found by cases have their answers in lowest terms. `Overflow` and `Nodes` come only where the reference elimination
/// stops so.
pub fn wanted_cases<R: Threads + Sync, G: Gate + Sync>(
    engine: &Engine<'_, R, G>,
    store: &mut Store,
    way: Way,
    read: &Premised,
) -> Result<Vec<PrintedCase>, FormsError>
    requires workers { 1 ≤ engine.now.limits.workers }
    requires id { IsId store.old read.now.formula }
    requires normal { Every (IsNormal (context_of engine.now.context)) (tree store.old read.now.formula) }
    requires atoms { EachOf (IsNormal (context_of engine.now.context)) (map atom_of read.now.atoms.items) }
    requires well_formed { AllByRecursion IsWellFormed read.now.atoms.items }
    ensures cases { IfOk result (λ v. AreCasesBy way (context_of engine.now.context) (map atom_of read.now.atoms.items) engine.now.limits.nodes (tree store.old read.now.formula) (map case_seen v.items)) }
    ensures lowest { IfOk result (λ v. AreLowestBy way (map case_seen v.items)) }
    ensures points { IfOk result (λ v. HavePoints v.items) }
    ensures fault { IfErr result (CasesFault (context_of engine.now.context) engine.now.limits.nodes (tree store.old read.now.formula)) }
    ensures kept { Keeps (IsId store.old) (tree store.old) (IsId store.new) (tree store.new) }
{
    let (alloc, context, limit) = (engine.alloc, engine.context, engine.limits.nodes);
    match way {
        Way::ByCases => cases_by_cases(engine, store, read.formula, &read.atoms),
        Way::ByReference => {
            reference_list(alloc, store, context, limit, read.formula, &read.atoms)
        }
    }
}

/// The cases that the engine finds, without those that others cover, as they are left under the atoms, with their answers in lowest
/// terms.
fn cases_by_cases<R: Threads + Sync, G: Gate + Sync>(
    engine: &Engine<'_, R, G>,
    store: &mut Store,
    id: FormulaId,
    atoms: &[Atom],
) -> Result<Vec<PrintedCase>, FormsError>
    requires workers { 1 ≤ engine.now.limits.workers }
    requires id { IsId store.old id }
    requires normal { Every (IsNormal (context_of engine.now.context)) (tree store.old id) }
    requires atoms { EachOf (IsNormal (context_of engine.now.context)) (map atom_of atoms.now) }
    requires well_formed { AllByRecursion IsWellFormed atoms.now }
    ensures cases { IfOk result (λ v. AreCasesFor (context_of engine.now.context) (map atom_of atoms.now) (tree store.old id) (map case_seen v.items)) }
    ensures lowest { IfOk result (λ v. AreLowest (map case_seen v.items)) }
    ensures points { IfOk result (λ v. HavePoints v.items) }
    ensures fault { IfErr result (CasesFault (context_of engine.now.context) engine.now.limits.nodes (tree store.old id)) }
    ensures kept { Keeps (IsId store.old) (tree store.old) (IsId store.new) (tree store.new) }
{
    let case_tree = match engine.short_cases(store, id, atoms) {
        Ok(case_tree) => case_tree,
        Err(error) => return Err(measured_error(error)),
    };
    let left = left_guards(engine.alloc, store, engine.context, case_tree.cases, atoms);
    let Ok(left) = left else {
        return Err(FormsError::Memory);
    };
    match lowest_cases(engine.alloc, left) {
        Ok(cases) => Ok(cases),
        Err(_) => Err(FormsError::Memory),
    }
}
