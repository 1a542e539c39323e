//! Blocks of ordinary questions, with how many branches and nodes they leave.

ghost use Rattle.std.specs.Prelude.{All};
ghost use Rattle.formula_store.specs.Nodes.{IsId};

use crate::blocks::{branches_of, first_names};
use branch_rounds::Branch;
use formula_store::Store;
use gate_texts::tell;
use normal_atoms::Context;
use std::alloc::Global;
use std::fmt::Write;
use std::io;
use std::thread::Threads;

/// Ten half planes around a region.
const PLANES: &str =
    "x>=0 and y>=0 and x+y<=a and x-y<=2 and y-x<=2 and x+2*y>=1 and 2*x+y>=1 and x<=10 and y<=10 and x+y>=1;";

/// Half spaces that all hold in (1, 2, 3).
const SPACES: &str =
    "x+y+z<=7 and x-y+2*z<=6 and 3*x-2*y-z<=-4 and 2*z-x-y<=3 and y-3*x-2*z<=-7 and -x-y-z<=-5 and 2*x+3*y-3*z<=0 and z-2*y<=-1;";

/// Jobs of lengths 1 to 5 one after another within 15.
const JOBS: &str =
    "p>=0 and q>=p+1 and r>=q+2 and s>=r+3 and t>=s+4 and p+1<=15 and q+2<=15 and r+3<=15 and s+4<=15 and t+5<=15;";

pub(crate) fn rows<R: Threads + Sync + Print + AllocGlobal>(rt: &R) -> io::Result<()> {
    let fields = Context::Fields;
    let integers = Context::Integers;
    // The region's last coordinate is at most `a`. Upper points of `x` are the fewest: `a-y`, `y+2` and 10; and then the lower ones of
    // `y`. Over the fields the first leaves `1<=a<=2` (at 0), and `2<=a<=18` (at `(a-2)/2`), `a=1` (at `1-a`) and `18<=a<=20` (at
    // `a-10`), which others cover; the second `a>=2`; and the third `a>=18`, which that one covers. Over the integers `y>=0` follows
    // from `2*y>=a-2` and `y>=1-a`, so there is no point at 0. There `(a-2)/2` is two points, each with its guard modulo 2: even `a`
    // with `0<a<=19`, and odd `a` with `0<a<=20`; beside them stay `a=1` and `a>1`, since a congruence is compared by itself.
    row(rt, "ten half planes over the fields", fields, PLANES, 2)?;
    row(rt, "the same over the integers", integers, PLANES, 2)?;
    // they hold in a point, which leaves `true`
    let title = "eight half spaces around a point";
    row(rt, title, fields, SPACES, 3)?;
    // each begins where the one before ends, which leaves `true`
    row(rt, "five jobs in the time they take", fields, JOBS, 5)?;
    // `x` goes to an eleventh of the rest, and then `y` and `z` each to 0 to 10. Each of the 121 pairs leaves a congruence and a
    // comparison with `n`. Of those with one remainder the one that begins at the least amount covers the others.
    let paid = "x>=0 and y>=0 and z>=0 and 11*x+13*y+17*z=n;";
    row(rt, "coins of 11, 13 and 17", integers, paid, 3)?;
    // it goes through the 84 classes of the least common multiple, each of which leaves three congruences
    let title = "residues modulo 4, 6 and 7";
    let statement = "cong(x,a,4) and cong(x,b,6) and cong(x,c,7);";
    row(rt, title, integers, statement, 1)
}

fn row<R: Threads + Sync + Print + AllocGlobal>(
    rt: &R,
    title: &str,
    context: Context,
    statement: &str,
    names: usize,
) -> io::Result<()> {
    tell(
        rt,
        title,
        size_text(rt, rt.alloc(), context, statement, names),
    )
}

/// How many branches the block of the first names leaves over the statement's formula, and how many nodes they have together.
fn size_text<R: Threads + Sync>(
    rt: &R,
    alloc: Global,
    context: Context,
    statement: &str,
    names: usize,
) -> Option<String> {
    let block = first_names(alloc, names)?;
    let mut store = Store::new(alloc);
    let branches = branches_of(rt, alloc, context, statement, &block, &mut store)?;
    let count = branches.len();
    let nodes = nodes_of(&store, &branches);
    format!(in alloc; "branches {count}, nodes {nodes}").ok()
}

/// The nodes of the branches' formulas.
fn nodes_of(store: &Store, branches: &[Branch]) -> u64
    requires { All (λ b. IsId store.now b.formula) branches.now }
{
    let mut nodes: u64 = 0;
    for branch in branches {
        nodes = nodes.saturating_add(store.facts(branch.formula()).nodes);
    }
    nodes
}
