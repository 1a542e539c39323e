//! The truths of a formula at the points of a grid.

ghost use Rattle.std.specs.Prelude.{◌≡◌, ◌⊎◌, ◌≤◌, ◌↔◌, pos, None, IfOk, IfErr, OnOk, OnErr, IsTrue, MatchOption, length, map};
ghost use Rattle.std.specs.List.{AllByRecursion, IsDistinct, fold};
ghost use Rattle.logic_meaning.specs.Shape.{IsQuantifierFree};
ghost use Rattle.logic_meaning.specs.Some.{SomeOf};
ghost use Rattle.normal_atoms.specs.Atoms.{context_of};
ghost use Rattle.language_meaning.specs.declared.tree.Literal.TheVariants.{Fits};
ghost use Rattle.language_meaning.specs.Value.{same_name};
ghost use Rattle.language_meaning.specs.Statements.{Grid as GridOf};
ghost use Rattle.written_syntax.specs.StatementSyntaxWritable.{IsWritableRatio, IsWritableAxis, AreWritableAxes};
ghost use Rattle.logic_meaning.specs.Names.{place, with_name};
ghost use Rattle.formula_resolving.specs.Numbering.{Grows};
ghost use Rattle.formula_store.specs.Nodes.{tree, IsId};
ghost use Rattle.formula_store.specs.Truths.{IsWholeWhereAsked};
ghost use Rattle.program_meaning.specs.Frames.{points_of, most_points};
ghost use Rattle.point_grid.specs.Truths.{IsTruthList};
ghost use Rattle.program_meaning.specs.Grids.{lows as lows_of, IsFlat, IsFraction, IsAxis, AreAxes, IsGridAnswer, grid_text, MeanNoGrid};
ghost use Rattle.program_meaning.specs.Meaning.{meaning};
ghost use Rattle.session_state.specs.Numbered.{numbered};
ghost use Rattle.program_meaning.specs.Reply.{IsLine};
ghost use Rattle.session_state.specs.Keeping.{state_of, IsSessionState};
ghost use Rattle.session_state.specs.Growth.{KeepsState, GrowsState};
ghost use Rattle.session_state.specs.Scripted.{HasAnswers, answered_tree};
ghost use Rattle.form_commands.specs.Replies.{use_of, RefusesCommand, AnswersQuery};
ghost use Rattle.form_commands.specs.Reading.{HasNumbers};
ghost use Rattle.point_queries.specs.Asked.{HaveNumbers, entry_names};
ghost use Rattle.point_queries.specs.GridSteps.{part_entry, IsDivided, IsPastRatio, IsPastAxis, AcceptsGrid, RefusesGrid, AxesStop, IsMeantGrid, NoGrid, TruthsStop};

use crate::points::{check_valued, meant_point, number_command, read};
use exact_numbers::Fraction;
use form_commands::{Workshop, holds_quantifier};
use formula_store::FormulaId;
use formula_tree::Names;
use language_meaning::{GridAxis, Literal, PointEntry, Ratio};
use point_grid::{Grid, GridError, grid_truth};
use program_meaning::{Axis, Line, StatementError};
use qe_parallel::Gate;
use session_state::SessionState;
use std::alloc::{AllocError, Global};
use std::thread::Threads;
use written_syntax::Formula;

/// One of the three fractions of an axis.
#[derive(Clone, Copy, Debug, PartialEq, Eq)]
enum Part {
    Low,
    High,
    Step,
}

/// Answers with the truths of the formula at the points of the grid. After an `Err` the names may have grown.
pub fn answer_grid<R: Threads + Sync, G: Gate + Sync>(
    workshop: &Workshop<'_, R, G>,
    state: &mut SessionState,
    formula: &Formula,
    axes: &[GridAxis],
    printed: bool,
) -> Result<Line, StatementError>
    requires workers { 1 ≤ workshop.now.limits.workers }
    requires answers { HasAnswers state.old formula.now }
    requires axes { AreWritableAxes axes.now }
    requires session { IsSessionState state.old }
    ensures session { OnOk result (IsSessionState state.new) }
    ensures answer { IfOk result (AnswersQuery (GridOf (answered_tree formula.now) axes.now) (state_of state.old) workshop.now.limits.nodes printed (state_of state.new).names) }
    ensures next { OnOk result (state_of state.new ≡ numbered (meaning (GridOf (answered_tree formula.now) axes.now)) (state_of state.old)) }
    ensures refused { IfErr result (RefusesCommand (GridOf (answered_tree formula.now) axes.now) (state_of state.old) workshop.now.limits.nodes (use_of None printed)) }
    ensures grown { OnErr result (GrowsState state.old state.new) }
{
    let lows = entries_of(state.alloc, axes, Part::Low)?;
    number_command(formula, &lows, &state.bindings, &mut state.names)?;
    let truths = truths(workshop, state, formula, axes, &lows)?;
    line_of_truths(state.alloc, &truths, printed)
}

/// Numbers the names of the axes, in their order. After an `Err` the names may have grown.
pub fn number_axes(axes: &[GridAxis], names: &mut Names) -> Result<(), StatementError>
    ensures numbered { OnOk result (names.new ≡ fold with_name names.old (entry_names (lows_of axes.now))) }
    ensures grown { Grows names.old names.new }
    ensures memory { IfErr result (λ e. e ≡ StatementError.Memory) }
{
    for axis in axes {
        if let Err(_failed) = names.number(&axis.name) {
            return Err(StatementError::Memory);
        }
    }
    Ok(())
}

/// The truths of the formula at the points of the grid, or the first cause of a refusal.
fn truths<R: Threads + Sync, G: Gate + Sync>(
    workshop: &Workshop<'_, R, G>,
    state: &mut SessionState,
    formula: &Formula,
    axes: &[GridAxis],
    lows: &[PointEntry],
) -> Result<Vec<bool>, StatementError>
    requires workers { 1 ≤ workshop.now.limits.workers }
    requires answers { HasAnswers state.old formula.now }
    requires axes { AreWritableAxes axes.now }
    requires session { IsSessionState state.old }
    requires lows { lows.now ≡ lows_of axes.now }
    requires numbered { HasNumbers state.old.names (answered_tree formula.now) }
    requires valued { HaveNumbers state.old.names lows.now }
    ensures truths { IfOk result (λ v. IsGridAnswer (state_of state.old) (answered_tree formula.now) axes.now v.items) }
    ensures few { IfOk result (λ v. length v.items ≤ most_points) }
    ensures accepted { OnOk result (AcceptsGrid (state_of state.old) (answered_tree formula.now) axes.now) }
    ensures refused { IfErr result (RefusesGrid (state_of state.old) workshop.now.limits.nodes (answered_tree formula.now) axes.now) }
    ensures kept { KeepsState state.old state.new }
{
    let id = read(state, formula, lows)?;
    check_axes(state, axes, lows)?;
    check_valued(state, formula, lows)?;
    if holds_quantifier(state, formula) {
        return Err(StatementError::Quantified);
    }
    let Some(id) = id else {
        return Err(StatementError::Overflow);
    };
    let grid = grid_of(state, axes)?;
    truths_at(workshop, state, id, &grid)
}

/// Whether the axes mean a grid of the theory.
fn check_axes(
    state: &SessionState,
    axes: &[GridAxis],
    lows: &[PointEntry],
) -> Result<(), StatementError>
    requires axes { AreWritableAxes axes.now }
    requires lows { lows.now ≡ lows_of axes.now }
    ensures meant { OnOk result (¬ (MeanNoGrid (context_of state.now.context) axes.now)) }
    ensures fault { IfErr result (AxesStop (context_of state.now.context) axes.now) }
{
    meant_point(state.alloc, state.context, lows)?;
    let highs = entries_of(state.alloc, axes, Part::High)?;
    meant_point(state.alloc, state.context, &highs)?;
    let steps = entries_of(state.alloc, axes, Part::Step)?;
    meant_point(state.alloc, state.context, &steps)?;
    if axes.iter().any(is_flat) {
        return Err(StatementError::Point);
    }
    Ok(())
}

/// This part of each axis, as the entries of a point.
fn entries_of(
    alloc: Global,
    axes: &[GridAxis],
    part: Part,
) -> Result<Vec<PointEntry>, StatementError>
    ensures entries { IfOk result (λ v. v.items ≡ map (part_entry part) axes.now) }
    ensures memory { IfErr result (λ e. e ≡ StatementError.Memory) }
{
    let mut entries = Vec::new(alloc);
    for axis in axes {
        let ratio = match part {
            Part::Low => axis.low,
            Part::High => axis.high,
            Part::Step => axis.step,
        };
        let entry = PointEntry {
            name: axis.name,
            above: ratio.above,
            below: ratio.below,
        };
        if let Err(_failed) = entries.push(entry) {
            return Err(StatementError::Memory);
        }
    }
    Ok(entries)
}

/// Whether the step is a fraction of literals within the limit, and not positive.
fn is_flat(axis: &GridAxis) -> bool
    ensures { IsTrue result ↔ IsFlat axis.now }
{
    match (axis.step.above, axis.step.below) {
        (Literal::Fits(above), Literal::Fits(_)) => above <= 0,
        _ => false,
    }
}

/// The grid of the axes. `Overflow` comes exactly where a literal or a number of the grid passes 2^127 - 1, `Nodes` exactly where none
/// does and the grid has more than 1,000,000 points, else `Memory`.
fn grid_of(state: &SessionState, axes: &[GridAxis]) -> Result<Grid, StatementError>
    requires axes { AreWritableAxes axes.now }
    requires distinct { IsDistinct same_name state.now.names }
    requires numbered { HaveNumbers state.now.names (lows_of axes.now) }
    requires meant { ¬ (MeanNoGrid (context_of state.now.context) axes.now) }
    ensures grid { IfOk result (IsMeantGrid (place state.now.names) axes.now) }
    ensures stopped { IfErr result (NoGrid (place state.now.names) axes.now) }
{
    let axes = axes_of(state.alloc, &state.names, axes)?;
    match Grid::of(state.alloc, &axes) {
        Ok(grid) => Ok(grid),
        Err(GridError::Overflow) => Err(StatementError::Overflow),
        Err(GridError::Points) => Err(StatementError::Nodes),
        Err(GridError::Memory) => Err(StatementError::Memory),
    }
}

/// The axes with their names numbered. `Overflow` comes exactly where a literal passes 2^127 - 1, else `Memory`.
fn axes_of(alloc: Global, names: &Names, axes: &[GridAxis]) -> Result<Vec<Axis>, StatementError>
    requires axes { AreWritableAxes axes.now }
    requires divided { AllByRecursion IsDivided axes.now }
    ensures axes { IfOk result (λ v. AreAxes (place names.now) axes.now v.items) }
    ensures stopped { IfErr result (λ e. ((e ≡ StatementError.Overflow) × SomeOf IsPastAxis axes.now) ⊎ (e ≡ StatementError.Memory)) }
{
    let mut numbered = Vec::new(alloc);
    for axis in axes {
        let Some(axis) = axis_of(names, axis) else {
            return Err(StatementError::Overflow);
        };
        if let Err(_failed) = numbered.push(axis) {
            return Err(StatementError::Memory);
        }
    }
    Ok(numbered)
}

/// The axis with its name numbered, or `None` where a literal passes 2^127 - 1.
fn axis_of(names: &Names, axis: &GridAxis) -> Option<Axis>
    requires axis { IsWritableAxis axis.now }
    requires divided { IsDivided axis.now }
    ensures { MatchOption result (IsPastAxis axis.now) (IsAxis (place names.now) axis.now) }
{
    Some(Axis {
        name: names.place(&axis.name),
        low: fraction_of(axis.low)?,
        high: fraction_of(axis.high)?,
        step: fraction_of(axis.step)?,
    })
}

/// The fraction, or `None` where a literal passes 2^127 - 1.
fn fraction_of(ratio: Ratio) -> Option<Fraction>
    requires ratio { IsWritableRatio ratio }
    requires divided { ¬ (ratio.below ≡ Fits (pos 0)) }
    ensures { MatchOption result (IsPastRatio ratio) (IsFraction ratio) }
{
    match (ratio.above, ratio.below) {
        (Literal::Fits(numerator), Literal::Fits(denominator)) => Some(Fraction {
            numerator,
            denominator,
        }),
        _ => None,
    }
}

/// The truths of a resolved formula without quantifiers at the points of the grid.
fn truths_at<R: Threads + Sync, G: Gate + Sync>(
    workshop: &Workshop<'_, R, G>,
    state: &SessionState,
    id: FormulaId,
    grid: &Grid,
) -> Result<Vec<bool>, StatementError>
    requires workers { 1 ≤ workshop.now.limits.workers }
    requires id { IsId state.now.store id }
    requires free { IsQuantifierFree (tree state.now.store id) }
    requires whole { IsWholeWhereAsked (tree state.now.store id) grid.now.denominator }
    ensures truths { IfOk result (λ v. IsTruthList (tree state.now.store id) (points_of grid.now) v.items) }
    ensures stopped { IfErr result (TruthsStop (tree state.now.store id) grid.now) }
{
    match grid_truth(
        workshop.rt,
        state.alloc,
        &state.store,
        id,
        grid,
        workshop.limits.workers,
        workshop.gate,
    ) {
        Ok(truths) => Ok(truths),
        Err(GridError::Overflow) => Err(StatementError::Overflow),
        Err(_) => Err(StatementError::Memory),
    }
}

/// The line of the truths, if it is printed.
fn line_of_truths(alloc: Global, truths: &[bool], printed: bool) -> Result<Line, StatementError>
    requires few { length truths.now ≤ most_points }
    ensures line { IfOk result (IsLine printed (grid_text truths.now)) }
    ensures memory { IfErr result (λ e. e ≡ StatementError.Memory) }
{
    if !printed {
        return Ok(Line::Nothing);
    }
    match text_of_truths(alloc, truths) {
        Ok(text) => Ok(Line::Printed(text)),
        Err(_) => Err(StatementError::Memory),
    }
}

/// The truths as digits, in braces.
fn text_of_truths(alloc: Global, truths: &[bool]) -> Result<Vec<u8>, AllocError>
    ensures { IfOk result (λ v. v.items ≡ grid_text truths.now) }
{
    let mut text = Vec::new(alloc);
    text.push(b'{')?;
    for truth in truths {
        text.push(if *truth { b'1' } else { b'0' })?;
    }
    text.push(b'}')?;
    Ok(text)
}
