// Work between any two stores with one kind of cell.
#![tactic(auto)]

ghost use Rattle.std.specs.Prelude.{◌≡◌, ◌-◌, max, length};
ghost use Rattle.store.specs.Means.{meaning};
ghost use Rattle.transfer.specs.Copies.{moved, copied_cell, copied_from, reached, Overlaid};

use store::{Cell, Fault, Store};

// Which of the two stores refused.
#[derive(Clone, Copy, PartialEq, Eq, Debug)]
pub enum Side {
    // it refused the read
    Source,
    // it refused the write
    Target,
}

// Where and why a copy stopped: every cell before it is copied.
#[derive(Clone, Copy, PartialEq, Eq, Debug)]
pub struct Stop {
    pub at: usize,
    pub side: Side,
    pub fault: Fault,
}

// Reads cell i of one store and writes it to cell i of another.
pub fn copy_cell<A: Store, B: Store<Cell = A::Cell>>(
    from: &mut A,
    to: &mut B,
    i: usize,
) -> Result<(), Stop>
    ensures copied { moved (meaning A.Store from.new) (meaning B.Store to.new) result ≡ copied_cell (meaning A.Store from.old) (meaning B.Store to.old) i }
    ensures source { A.Store.rest from.new ≡ A.Store.rest from.old }
    ensures target { B.Store.rest to.new ≡ B.Store.rest to.old }
{
    let v = from.read(i).map_err(|fault| Stop {
        at: i,
        side: Side::Source,
        fault,
    })?;
    to.write(i, v).map_err(|fault| Stop {
        at: i,
        side: Side::Target,
        fault,
    })
}

// Copies the cells from `start` to the source's end onto the same cells of the target, in order, and
// stops at the first refusal. A copy that stopped is resumed from where it stopped.
#[tactic(auto, using(crate::proofs::Copying::one_more))]
pub fn copy<A: Store, B: Store<Cell = A::Cell>>(
    from: &mut A,
    to: &mut B,
    start: usize,
) -> Result<(), Stop>
    ensures copied { moved (meaning A.Store from.new) (meaning B.Store to.new) result ≡ copied_from (length (A.Store.cells from.old) - start) start (meaning A.Store from.old) (meaning B.Store to.old) }
    ensures laid { Overlaid start (reached (max start (length (A.Store.cells from.old))) result) (A.Store.cells from.old) (B.Store.cells to.old) (B.Store.cells to.new) }
    ensures source { A.Store.rest from.new ≡ A.Store.rest from.old }
    ensures target { B.Store.rest to.new ≡ B.Store.rest to.old }
{
    for i in start..from.count() {
        copy_cell(from, to, i)?;
    }
    Ok(())
}
