// Some cells in a row of any store.
ghost use Rattle.std.specs.Prelude.{◌≡◌, ◌+◌, ◌^◌, ◌<◌, length};
ghost use Rattle.store.specs.Stores.{part, span_of, through, Around, around};

use crate::life::Fault;
use crate::store::Store;

// The `size` cells from `first` on; none where that passes the end of the store below.
#[derive(Drop)]
pub struct Window<S> {
    below: S,
    first: usize,
    size: usize,
}

impl<S> Window<S> {
    // The window of `size` cells from cell `first` on.
    pub fn new(below: S, first: usize, size: usize) -> Window<S>
        ensures { (result.below ≡ below) × ((result.first ≡ first) × (result.size ≡ size)) }
    {
        Window { below, first, size }
    }
}

impl<S: Store> Window<S> {
    // How many cells it has: all or none.
    fn span(&self) -> usize
        ensures all { result ≡ span_of self.now.first self.now.size (length (S.Store.cells self.now.below)) }
        ensures end { self.now.first + result < 2 ^ 64 }
    {
        let count = self.below.count();
        match self.first.checked_add(self.size) {
            Some(end) if end <= count => self.size,
            _ => 0,
        }
    }

    // The cell below that is cell i here, if there is one.
    fn place(&self, i: usize) -> Result<usize, Fault>
        ensures { result ≡ through self.now.first self.now.size (length (S.Store.cells self.now.below)) i }
    {
        if i < self.span() {
            Ok(self.first + i)
        } else {
            Err(Fault::OutOfRange)
        }
    }
}

impl<S: Store> Store for Window<S> {
    type Cell = S::Cell;

    ghost cells = { λ s. part s.first s.size (S.Store.cells s.below) };

    ghost life = { λ s. S.Store.life s.below };

    // the cells before and after it, and what the store below stands on
    ghost Rest = { Around S.Store.Rest S.Cell };

    ghost rest = { λ s. around s.first s.size (S.Store.cells s.below) (S.Store.rest s.below) };

    #[tactic(auto, using(crate::proofs::Parts::part_count))]
    fn count(&self) -> usize {
        self.span()
    }

    #[tactic(auto, using(crate::proofs::Parts::shown))]
    fn read(&mut self, i: usize) -> Result<S::Cell, Fault> {
        let at = self.place(i)?;
        self.below.read(at)
    }

    #[tactic(auto, using(crate::proofs::Parts::shown))]
    fn write(&mut self, i: usize, v: S::Cell) -> Result<(), Fault> {
        let at = self.place(i)?;
        self.below.write(at, v)
    }

    fn renew(&mut self, n: u32) {
        self.below.renew(n);
    }
}
