// What every store offers.
ghost use Rattle.std.specs.Prelude.{◌≡◌, List, length};
ghost use Rattle.store.specs.Stores.{stored, read_answer, after_read, write_answer, after_write, after_renew};
ghost use Rattle.store.specs.declared.life.Life.{Life};

use crate::cell::Cell;
use crate::life::Fault;

// A list of cells of fixed length, and a life.
pub trait Store {
    // What is read and written whole.
    type Cell: Cell;

    // the cells, from cell 0 on
    ghost cells: { Self → List Self.Cell };

    // endless, or the number of operations left
    ghost life: { Self → Life };

    // What the store stands on besides its cells and its life, as the lender's memory around them; no operation
    // changes it. (Each operation promises that, since an invariant speaks of one moment only.)
    ghost Rest: { Type 0 };

    ghost rest: { Self → Rest };

    // How many cells there are.
    fn count(&self) -> usize
        ensures { result ≡ length (cells self.now) };

    // The cell at i.
    fn read(&mut self, i: usize) -> Result<Self::Cell, Fault>
        ensures answer { result ≡ read_answer (stored (cells self.old) (life self.old)) i }
        ensures after { stored (cells self.new) (life self.new) ≡ after_read (stored (cells self.old) (life self.old)) i }
        ensures kept { rest self.new ≡ rest self.old };

    // Puts v at i.
    fn write(&mut self, i: usize, v: Self::Cell) -> Result<(), Fault>
        ensures answer { result ≡ write_answer (stored (cells self.old) (life self.old)) i }
        ensures after { stored (cells self.new) (life self.new) ≡ after_write (stored (cells self.old) (life self.old)) i v }
        ensures kept { rest self.new ≡ rest self.old };

    // Gives a numbered life n operations; an endless life stays endless.
    fn renew(&mut self, n: u32)
        ensures after { stored (cells self.new) (life self.new) ≡ after_renew n (stored (cells self.old) (life self.old)) }
        ensures kept { rest self.new ≡ rest self.old };
}
