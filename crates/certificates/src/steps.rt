// One name taken out of the rows.
ghost use Rattle.std.specs.Prelude.{◌≡◌, ◌++◌, [], ◌∷◌, pos, ◌<ℤ◌, map, length, IfOk, IfErr, OnOk};
ghost use Rattle.logic_meaning.specs.Form.{coefficient};
ghost use Rattle.logic_meaning.specs.Measured.{pay, done};
ghost use Rattle.logic_meaning.specs.Some.{EachOf};
ghost use Rattle.linear_forms.specs.Values.{number_of};
ghost use Rattle.logic_meaning.specs.Rows.{absent, uppers, lowers};
ghost use Rattle.logic_meaning.specs.Search.{new_row, new_rows, next_rows};
ghost use Rattle.certificates.specs.Rows.{row_of, rows_of, pair_of, kept_of, all_kept};
ghost use Rattle.certificates.specs.Search.{AreBounds, pairs_with, all_pairs, after, kept, descent};
ghost use Rattle.certificates.specs.CertificateSearchStops.{StopsSearch};

use crate::error::CertError;
use crate::rows::{Row, without_name};
use logic_meaning::VarId;
use std::alloc::{AllocError, Global};
use std::cmp::Ordering;

// A name, and the rows that bound it above and below.
#[derive(Drop)]
pub(crate) struct Step {
    pub(crate) name: VarId,
    pub(crate) uppers: Vec<Row>,
    pub(crate) lowers: Vec<Row>,
}

// Rows by how they bound a name.
#[derive(Drop)]
struct Split {
    absent: Vec<Row>,
    step: Step,
}

impl Split {
    // No rows.
    fn new(alloc: Global, name: VarId) -> Split
        ensures absent { result.absent.items ≡ [] }
        ensures uppers { result.step.uppers.items ≡ [] }
        ensures lowers { result.step.lowers.items ≡ [] }
        ensures name { result.step.name ≡ name }
    {
        Split {
            absent: Vec::new(alloc),
            step: Step {
                name,
                uppers: Vec::new(alloc),
                lowers: Vec::new(alloc),
            },
        }
    }

    // Puts the row behind those of its kind.
    fn push(&mut self, row: Row) -> Result<(), AllocError>
        ensures absent { OnOk result (rows_of self.new.absent.items ≡ rows_of self.old.absent.items ++ absent self.old.step.name.number (row_of row ∷ [])) }
        ensures uppers { OnOk result (rows_of self.new.step.uppers.items ≡ rows_of self.old.step.uppers.items ++ uppers self.old.step.name.number (row_of row ∷ [])) }
        ensures lowers { OnOk result (rows_of self.new.step.lowers.items ≡ rows_of self.old.step.lowers.items ++ lowers self.old.step.name.number (row_of row ∷ [])) }
        ensures name { self.new.step.name ≡ self.old.step.name }
    {
        match row.form.coefficient(self.step.name).cmp(&0) {
            Ordering::Less => self.step.lowers.push(row)?,
            Ordering::Equal => self.absent.push(row)?,
            Ordering::Greater => self.step.uppers.push(row)?,
        }
        Ok(())
    }

    // The rows by how they bound the name, each kind in its order.
    fn of(alloc: Global, name: VarId, rows: Vec<Row>) -> Result<Split, AllocError>
        ensures absent { IfOk result (λ s. rows_of s.absent.items ≡ absent name.number (rows_of rows.items)) }
        ensures step { IfOk result (λ s. kept_of s.step ≡ kept name.number (rows_of rows.items)) }
    {
        let mut split = Split::new(alloc, name);
        for row in rows {
            split.push(row)?;
        }
        Ok(split)
    }
}

// What stays the same during a search: the allocator, and how much the rows may cost.
#[derive(Clone, Copy)]
pub(crate) struct Search {
    pub(crate) alloc: Global,
    pub(crate) limit: u64,
}

impl Search {
    // Counts one row more. `Nodes` comes exactly where they pass the limit.
    fn pay(self, cost: &mut u64) -> Result<(), CertError>
        ensures paid { OnOk result (pay self.limit 1 cost.old ≡ done (tt, cost.new)) }
        ensures stops { IfErr result (λ e. StopsSearch e (pay self.limit 1 cost.old)) }
    {
        if *cost < self.limit {
            *cost += 1;
            Ok(())
        } else {
            Err(CertError::Nodes)
        }
    }

    // The new row of two rows, which is paid for before its numbers are formed.
    fn new_row(
        self,
        cost: &mut u64,
        name: VarId,
        upper: &Row,
        lower: &Row,
    ) -> Result<Row, CertError>
        requires upper_bound { pos 0 <ℤ coefficient name.number upper.now.form }
        requires lower_bound { coefficient name.number lower.now.form <ℤ pos 0 }
        ensures row { IfOk result (λ r. new_row self.limit name.number (pair_of upper.now lower.now) cost.old ≡ done (row_of r, cost.new)) }
        ensures stops { IfErr result (λ e. StopsSearch e (new_row self.limit name.number (pair_of upper.now lower.now) cost.old)) }
    {
        self.pay(cost)?;
        Ok(without_name(self.alloc, name, upper, lower)?)
    }

    // Adds the new rows of an upper row with each lower one.
    fn add_with(
        self,
        cost: &mut u64,
        name: VarId,
        upper: &Row,
        lowers: &[Row],
        rows: &mut Vec<Row>,
    ) -> Result<(), CertError>
        requires upper_bound { pos 0 <ℤ coefficient name.number upper.now.form }
        requires lower_bounds { EachOf (λ r. coefficient name.number r.form <ℤ pos 0) (rows_of lowers.now) }
        ensures rows { OnOk result (after (rows_of rows.old.items) (new_rows self.limit name.number (pairs_with (rows_of lowers.now) (row_of upper.now)) cost.old) ≡ done (rows_of rows.new.items, cost.new)) }
        ensures stops { IfErr result (λ e. StopsSearch e (after (rows_of rows.old.items) (new_rows self.limit name.number (pairs_with (rows_of lowers.now) (row_of upper.now)) cost.old))) }
    {
        for lower in lowers {
            let row = self.new_row(cost, name, upper, lower)?;
            rows.push(row)?;
        }
        Ok(())
    }

    // Adds the new rows of each upper row with each lower one.
    fn add_all(self, cost: &mut u64, step: &Step, rows: &mut Vec<Row>) -> Result<(), CertError>
        requires { AreBounds (kept_of step.now) }
        ensures rows { OnOk result (after (rows_of rows.old.items) (new_rows self.limit step.now.name.number (all_pairs (kept_of step.now)) cost.old) ≡ done (rows_of rows.new.items, cost.new)) }
        ensures stops { IfErr result (λ e. StopsSearch e (after (rows_of rows.old.items) (new_rows self.limit step.now.name.number (all_pairs (kept_of step.now)) cost.old))) }
    {
        for upper in &step.uppers {
            self.add_with(cost, step.name, upper, &step.lowers, rows)?;
        }
        Ok(())
    }

    // The rows after the step for the name, and what is kept of it. `Overflow` and `Nodes` come exactly where they stop the
    // step, else `Memory`.
    fn next_rows(
        self,
        cost: &mut u64,
        name: VarId,
        rows: Vec<Row>,
    ) -> Result<(Vec<Row>, Step), CertError>
        ensures rows { IfOk result (λ r. next_rows self.limit name.number (rows_of rows.items) cost.old ≡ done (rows_of r.0.items, cost.new)) }
        ensures kept { IfOk result (λ r. kept_of r.1 ≡ kept name.number (rows_of rows.items)) }
        ensures stops { IfErr result (λ e. StopsSearch e (next_rows self.limit name.number (rows_of rows.items) cost.old)) }
    {
        let split = Split::of(self.alloc, name, rows)?;
        let mut rows = split.absent;
        self.add_all(cost, &split.step, &mut rows)?;
        Ok((rows, split.step))
    }

    // The rows without the names, and what is kept of each step. `Overflow` and `Nodes` come exactly where they stop the
    // steps, else `Memory`.
    pub(crate) fn descend(
        self,
        names: &[VarId],
        mut rows: Vec<Row>,
    ) -> Result<(Vec<Row>, Vec<Step>), CertError>
        ensures rows { IfOk result (λ r. descent self.limit (map number_of names.now) (rows_of rows.items) (length rows.items) ≡ done (rows_of r.0.items, all_kept r.1.items)) }
        ensures stops { IfErr result (λ e. StopsSearch e (descent self.limit (map number_of names.now) (rows_of rows.items) (length rows.items))) }
    {
        let mut cost = rows.len() as u64;
        let mut steps = Vec::with_capacity(self.alloc, names.len())?;
        for name in names {
            let (next, step) = self.next_rows(&mut cost, *name, rows)?;
            rows = next;
            steps.push(step)?;
        }
        Ok((rows, steps))
    }
}
