// The tableau: columns, the lines that solve some of them for the others, and conditions on them.
use crate::column::{Column, Ends, Limit, Side};
use crate::halt::{Halt, fitting};
use crate::line::{Change, Entry, Line};
use crate::row::{Condition, Demand, Domain, Row, Term};
use bound_values::Value;
use difference_graph::Graph;
use std::alloc::{AllocError, Global};
use std::collections::BTreeMap;
use std::mem;

// A condition, by its column and what it asks of its value.
#[derive(Clone, Copy)]
pub(crate) struct Asked {
    pub(crate) column: usize,
    pub(crate) demand: Demand,
}

// A bound as it was before it was set, and how many bounds the graph had.
#[derive(Clone, Copy)]
pub(crate) struct Before {
    column: usize,
    side: Side,
    limit: Option<Limit>,
    edges: usize,
}

// How values are found: by a graph, while all conditions are on differences of two names or on one, or by the tableau.
#[derive(Clone, Copy, PartialEq, Eq)]
pub(crate) enum Method {
    Graph,
    Tableau,
}

/// Linear conditions over names, some of which are in force, and values that meet those in force after a check. Bounds carry the places
/// of the conditions that set them, and are taken back in the opposite order (Dutertre and de Moura, "A Fast Linear-Arithmetic Solver for
/// DPLL(T)", 2006). Nothing is promised of what it finds.
#[derive(Drop)]
pub struct Simplex {
    pub(crate) alloc: Global,
    domain: Domain,
    pub(crate) method: Method,
    pub(crate) graph: Graph,
    pub(crate) columns: Vec<Column>,
    pub(crate) lines: Vec<Line>,
    pub(crate) names: Vec<Option<usize>>,
    sums: BTreeMap<u64, Vec<usize>>,
    forms: Vec<Vec<Term>>,
    pub(crate) asked: Vec<Asked>,
    places: Vec<Vec<usize>>,
    pub(crate) befores: Vec<Before>,
    pub(crate) suspects: Vec<usize>,
    changed: Vec<usize>,
    pub(crate) is_spent: bool,
}

impl Simplex {
    /// No names and no conditions.
    pub fn new(alloc: Global, domain: Domain) -> Simplex {
        Simplex {
            alloc,
            domain,
            method: Method::Graph,
            graph: Graph::new(alloc),
            columns: Vec::new(alloc),
            lines: Vec::new(alloc),
            names: Vec::new(alloc),
            sums: BTreeMap::new(alloc),
            forms: Vec::new(alloc),
            asked: Vec::new(alloc),
            places: Vec::new(alloc),
            befores: Vec::new(alloc),
            suspects: Vec::new(alloc),
            changed: Vec::new(alloc),
            is_spent: false,
        }
    }

    /// Adds the condition that a row is met, which is not in force yet, and gives its place. Where a number of it does not fit, the
    /// simplex is spent from then on.
    pub fn add(&mut self, row: &Row) -> Result<usize, AllocError> {
        let place = self.asked.len();
        let asked = match self.asked_of(row) {
            Ok(asked) => asked,
            Err(Halt::Memory(error)) => return Err(error),
            Err(Halt::Spent) => {
                self.is_spent = true;
                None
            }
        };
        let asked = asked.unwrap_or(Asked {
            column: usize::MAX,
            demand: Demand::Nothing,
        });
        self.asked.push(asked)?;
        if let Some(places) = self.places.get_mut(asked.column) {
            places.push(place)?;
        }
        Ok(place)
    }

    // What a row asks of which column; a row without names asks none.
    fn asked_of(&mut self, row: &Row) -> Result<Option<Asked>, Halt> {
        self.note_names(row)?;
        let condition = fitting(Condition::of(self.alloc, row, self.domain)?)?;
        let demand = condition.demand;
        if condition.form.is_empty() {
            return Ok(Some(Asked {
                column: usize::MAX,
                demand,
            }));
        }
        let column = self.column_of(condition.form)?;
        Ok(Some(Asked { column, demand }))
    }

    // Makes a column for each name of a row that has none.
    fn note_names(&mut self, row: &Row) -> Result<(), AllocError> {
        for term in &row.terms {
            for _ in self.names.len()..=term.name {
                self.names.push(None)?;
            }
            if self.name_column(term.name).is_none() {
                let ends = self.new_ends()?;
                let column = self.add_column(Value::ZERO, None, Some(ends))?;
                if let Some(entry) = self.names.get_mut(term.name) {
                    *entry = Some(column);
                }
            }
        }
        Ok(())
    }

    // The column of a name.
    pub(crate) fn name_column(&self, name: usize) -> Option<usize> {
        self.names.get(name).copied().flatten()
    }

    // A node for a name, and that of 0.
    fn new_ends(&mut self) -> Result<Ends, AllocError> {
        if self.graph.nodes() == 0 {
            self.graph.add_node()?;
        }
        Ok(Ends {
            upper: self.graph.add_node()?,
            lower: 0,
        })
    }

    // The nodes whose difference a form is, if it is one of two names.
    fn ends_of(&self, form: &[Term]) -> Option<Ends> {
        let [first, second] = form else {
            return None;
        };
        if first.coefficient != 1 || second.coefficient != -1 {
            return None;
        }
        let one = self.columns.get(self.name_column(first.name)?)?.ends?;
        let other = self.columns.get(self.name_column(second.name)?)?.ends?;
        Some(Ends {
            upper: one.upper,
            lower: other.upper,
        })
    }

    // Adds a column, and gives its place.
    fn add_column(
        &mut self,
        value: Value,
        line: Option<usize>,
        ends: Option<Ends>,
    ) -> Result<usize, AllocError> {
        let place = self.columns.len();
        self.columns
            .push(Column::new(value, line, Vec::new(self.alloc), ends))?;
        self.places.push(Vec::new(self.alloc))?;
        self.forms.push(Vec::new(self.alloc))?;
        Ok(place)
    }

    // The column of a form: that of its name where it is one, else that of the sum, which is made where it is new.
    fn column_of(&mut self, form: Vec<Term>) -> Result<usize, Halt> {
        if let [term] = form.as_slice() {
            return fitting(self.name_column(term.name));
        }
        let key = hash(&form);
        if let Some(column) = self.known_column(key, &form) {
            return Ok(column);
        }
        let column = self.add_sum(&form)?;
        if let Some(entry) = self.forms.get_mut(column) {
            *entry = form;
        }
        self.note_sum(key, column)?;
        Ok(column)
    }

    // The column of a sum, if it has one.
    fn known_column(&self, key: u64, form: &[Term]) -> Option<usize> {
        for column in self.sums.get(&key)? {
            if self.forms.get(*column)?.as_slice() == form {
                return Some(*column);
            }
        }
        None
    }

    // Notes the column of a sum.
    fn note_sum(&mut self, key: u64, column: usize) -> Result<(), AllocError> {
        if let Some(columns) = self.sums.get_mut(&key) {
            columns.push(column)?;
            return Ok(());
        }
        let mut columns = Vec::new(self.alloc);
        columns.push(column)?;
        self.sums.insert(key, columns)?;
        Ok(())
    }

    // Adds a column and a line for a sum, and gives the column.
    fn add_sum(&mut self, form: &[Term]) -> Result<usize, Halt> {
        let line = self.line_of(form)?;
        let mut value = Value::ZERO;
        for entry in &line.entries {
            if let Some(column) = self.columns.get(entry.column) {
                let slope = fitting(line.slope(entry.column))?;
                value = fitting(fitting(column.value.times(slope))?.plus(value))?;
            }
        }
        let place = self.lines.len();
        for entry in &line.entries {
            if let Some(column) = self.columns.get_mut(entry.column) {
                column.uses.push(place)?;
            }
        }
        self.lines.push(line)?;
        let ends = self.ends_of(form);
        let column = self.add_column(value, Some(place), ends)?;
        if ends.is_none() && self.method == Method::Graph {
            self.use_tableau()?;
        }
        Ok(column)
    }

    // The line of a sum for a column that is yet to be added.
    fn line_of(&self, form: &[Term]) -> Result<Line, Halt> {
        let mut entries = Vec::with_capacity(self.alloc, form.len())?;
        for term in form {
            entries.push(Entry {
                column: fitting(self.name_column(term.name))?,
                coefficient: term.coefficient,
            })?;
        }
        entries.sort_unstable_by_key(|entry| entry.column);
        let mut line = Line {
            basic: self.columns.len(),
            denominator: 1,
            entries,
        };
        let mut changes = Vec::new(self.alloc);
        for term in form {
            if let Some(column) = self.name_column(term.name)
                && let Some(solved) = self.solved(column)
            {
                line.put_in(self.alloc, solved, &mut changes)?;
            }
        }
        Ok(line)
    }

    // The line that is solved for a column, if one is.
    pub(crate) fn solved(&self, column: usize) -> Option<&Line> {
        self.lines.get(self.columns.get(column)?.line?)
    }

    /// How many bounds have been set, for `undo`.
    pub fn depth(&self) -> usize {
        self.befores.len()
    }

    /// Takes back the bounds that were set since the depth was that.
    pub fn undo(&mut self, depth: usize) {
        for _ in depth..self.befores.len() {
            if let Some(before) = self.befores.pop() {
                self.graph.truncate(before.edges);
                if let Some(column) = self.columns.get_mut(before.column) {
                    column.set_limit(before.side, before.limit);
                }
            }
        }
    }

    // Sets a bound.
    pub(crate) fn set_limit(
        &mut self,
        place: usize,
        side: Side,
        limit: Limit,
    ) -> Result<(), AllocError> {
        let edges = self.graph.len();
        if let Some(column) = self.columns.get_mut(place) {
            let before = column.limit(side);
            column.set_limit(side, Some(limit));
            self.befores.push(Before {
                column: place,
                side,
                limit: before,
                edges,
            })?;
            self.changed.push(place)?;
        }
        Ok(())
    }

    /// A column of which a bound was set since it was last given here, if there is one.
    pub fn next_changed(&mut self) -> Option<usize> {
        self.changed.pop()
    }

    /// The places of the conditions on a column.
    pub fn conditions_on(&self, column: usize) -> &[usize] {
        match self.places.get(column) {
            Some(places) => places.as_slice(),
            None => &[],
        }
    }

    // Takes the list of the lines in which a column stands.
    pub(crate) fn take_uses(&mut self, column: usize) -> Vec<usize> {
        let empty = Vec::new(self.alloc);
        match self.columns.get_mut(column) {
            Some(column) => mem::replace(&mut column.uses, empty),
            None => empty,
        }
    }

    // Puts such a list back.
    pub(crate) fn give_uses(&mut self, column: usize, uses: Vec<usize>) {
        if let Some(column) = self.columns.get_mut(column) {
            column.uses = uses;
        }
    }

    // Notes which columns come to stand in a line, and which go.
    pub(crate) fn note_changes(
        &mut self,
        place: usize,
        changes: &[Change],
    ) -> Result<(), AllocError> {
        for change in changes {
            match change {
                Change::Comes(column) => {
                    if let Some(column) = self.columns.get_mut(*column) {
                        column.uses.push(place)?;
                    }
                }
                Change::Goes(column) => {
                    if let Some(column) = self.columns.get_mut(*column) {
                        leave_out(&mut column.uses, place);
                    }
                }
            }
        }
        Ok(())
    }
}

// Takes a number out of a list, if it stands there; the last one takes its place.
fn leave_out(list: &mut Vec<usize>, number: usize) {
    if let Some(place) = list.iter().position(|entry| *entry == number)
        && let Some(last) = list.pop()
        && let Some(entry) = list.get_mut(place)
    {
        *entry = last;
    }
}

// A number that tells most forms apart.
fn hash(form: &[Term]) -> u64 {
    let mut key: u64 = 0xcbf2_9ce4_8422_2325;
    for term in form {
        let low = u64::try_from(term.coefficient.unsigned_abs() & 0xffff_ffff).unwrap_or(0);
        let signed = if term.coefficient < 0 {
            low.wrapping_mul(2).wrapping_add(1)
        } else {
            low.wrapping_mul(2)
        };
        key = (key ^ term.name as u64).wrapping_mul(0x0000_0100_0000_01b3);
        key = (key ^ signed).wrapping_mul(0x0000_0100_0000_01b3);
    }
    key
}
