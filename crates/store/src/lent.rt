// A store that is lent.
ghost use Rattle.std.specs.Borrow.{GName};

use crate::life::Fault;
use crate::store::Store;

// Any store by `&mut`: the owner has it back as it was left.
impl<'a, S: Store> Store for &'a mut S {
    type Cell = S::Cell;

    ghost cells = { λ s. S.Store.cells s.now };

    ghost life = { λ s. S.Store.life s.now };

    // which store is lent, and what it stands on
    ghost Rest = { GName × S.Store.Rest };

    ghost rest = { λ s. (s.ghost_name, S.Store.rest s.now) };

    fn count(&self) -> usize {
        S::count(*self)
    }

    fn read(&mut self, i: usize) -> Result<S::Cell, Fault> {
        S::read(*self, i)
    }

    fn write(&mut self, i: usize, v: S::Cell) -> Result<(), Fault> {
        S::write(*self, i, v)
    }

    fn renew(&mut self, n: u32) {
        S::renew(*self, n);
    }
}
