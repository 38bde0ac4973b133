// A store on cells that are lent.
ghost use Rattle.std.specs.Prelude.{◌≡◌};
ghost use Rattle.std.specs.Borrow.{GName};
ghost use Rattle.store.specs.Stores.{endless, read_answer, write_answer, after_write};
ghost use Rattle.store.specs.declared.life.Life.TheVariants.{Endless};

use crate::cell::Cell;
use crate::life::Fault;
use crate::store::Store;

// Cells of any kind in a lent slice; its life is endless.
#[derive(Drop)]
pub struct Row<'a, T> {
    lent: &'a mut [T],
}

impl<'a, T> Row<'a, T> {
    // The row over these cells.
    pub fn new(lent: &'a mut [T]) -> Row<'a, T>
        ensures { (result.lent.now ≡ lent.old) × (result.lent.ghost_name ≡ lent.entry.ghost_name) }
    {
        Row { lent }
    }
}

impl<'a, T: Cell> Row<'a, T> {
    // By `&self`, so that the slice is known to be as it was.
    fn get(&self, i: usize) -> Result<T, Fault>
        ensures { result ≡ read_answer (endless self.now.lent.now) i }
    {
        get_cell(self.lent, i)
    }
}

impl<'a, T: Cell> Store for Row<'a, T> {
    type Cell = T;

    ghost cells = { λ s. s.lent.now };

    ghost life = { λ _. Endless };

    // which slice is lent
    ghost Rest = { GName };

    ghost rest = { λ s. s.lent.ghost_name };

    fn count(&self) -> usize {
        self.lent.len()
    }

    fn read(&mut self, i: usize) -> Result<T, Fault> {
        self.get(i)
    }

    fn write(&mut self, i: usize, v: T) -> Result<(), Fault> {
        put_cell(self.lent, i, v)
    }

    fn renew(&mut self, _n: u32) {}
}

// The cell at i. (A function of the slice, as the one below: by the rules the row's methods hand it their slice. By
// `*` and not `copied`, which would copy a sector twice.)
fn get_cell<T: Cell>(cells: &[T], i: usize) -> Result<T, Fault>
    ensures { result ≡ read_answer (endless cells.now) i }
{
    Ok(*cells.get(i).ok_or(Fault::OutOfRange)?)
}

// Puts v in its place.
fn put_cell<T: Cell>(cells: &mut [T], i: usize, v: T) -> Result<(), Fault>
    ensures answer { result ≡ write_answer (endless cells.old) i }
    ensures after { endless cells.new ≡ after_write (endless cells.old) i v }
{
    if i >= cells.len() {
        return Err(Fault::OutOfRange);
    }
    // not by `get_mut`, which says nothing of what the slice ends as
    cells[i] = v;
    Ok(())
}
