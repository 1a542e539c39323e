//! Least values of a name.

use formula_store::Store;
use gate_texts::{normal_id, tell};
use linear_opt::{Least, least_value};
use logic_meaning::VarId;
use normal_atoms::Context;
use std::alloc::Global;
use std::io;

/// The least `x` at which a comparison with `a` is true, where `a` is 0.
pub(crate) fn rows<R: Print + AllocGlobal>(rt: &R) -> io::Result<()> {
    let alloc = rt.alloc();
    tell(rt, "the least number from 0 on", least(alloc, "x>=a;"))?;
    tell(rt, "the least number up to 0", least(alloc, "x<=a;"))
}

/// The least value of the statement's first name, with 0 for the others.
fn least(alloc: Global, statement: &str) -> Option<String> {
    let mut store = Store::new(alloc);
    let id = normal_id(alloc, Context::Fields, statement, &mut store)?;
    let found = least_value(&store, id, VarId { number: 0 }).ok()?;
    found_text(alloc, found)
}

/// The text of a least value.
fn found_text(alloc: Global, found: Least) -> Option<String> {
    match found {
        Least::Infeasible => "infeasible".to_string(alloc).ok(),
        Least::Unbounded => "unbounded".to_string(alloc).ok(),
        Least::At(value) => {
            let above = value.numerator;
            let below = value.denominator;
            format!(in alloc; "{above}/{below}").ok()
        }
    }
}
