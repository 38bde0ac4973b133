// A store of one's own: a single cell, held by value, with an endless life.
ghost use Rattle.std.specs.Prelude.{◌≡◌, [], ◌∷◌};
ghost use Rattle.store.specs.declared.life.Life.TheVariants.{Endless};

use store::{Cell, Fault, Store};

#[derive(Drop)]
pub struct Single<T> {
    cell: T,
}

impl<T> Single<T> {
    // The store of this one cell.
    pub fn new(cell: T) -> Single<T>
        ensures { result.cell ≡ cell }
    {
        Single { cell }
    }
}

impl<T: Cell> Store for Single<T> {
    type Cell = T;

    ghost cells = { λ s. s.cell ∷ [] };

    ghost life = { λ _. Endless };

    // it stands on nothing else
    ghost Rest = { Unit {0} };

    ghost rest = { λ _. tt };

    fn count(&self) -> usize {
        1
    }

    fn read(&mut self, i: usize) -> Result<T, Fault> {
        if i > 0 {
            return Err(Fault::OutOfRange);
        }
        Ok(self.cell)
    }

    fn write(&mut self, i: usize, v: T) -> Result<(), Fault> {
        if i > 0 {
            return Err(Fault::OutOfRange);
        }
        self.cell = v;
        Ok(())
    }

    fn renew(&mut self, _n: u32) {}
}
