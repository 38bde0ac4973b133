// A number of operations at most, over any store.
ghost use Rattle.std.specs.Prelude.{◌≡◌, ◌-◌, length};
ghost use Rattle.store.specs.Stores.{least, burnt_answer};

use crate::life::Fault;
use crate::store::Store;

// A fuse: it lets a number of operations pass to the store below, and then refuses all.
#[derive(Drop)]
pub struct Fuse<S> {
    below: S,
    left: u32,
}

impl<S> Fuse<S> {
    // A fuse that lets `left` operations pass.
    pub fn new(below: S, left: u32) -> Fuse<S>
        ensures { (result.below ≡ below) × (result.left ≡ left) }
    {
        Fuse { below, left }
    }

    // One operation less.
    fn burn(&mut self)
        ensures left { self.new.left ≡ self.old.left - 1 }
        ensures below { self.new.below ≡ self.old.below }
    {
        self.left = self.left.saturating_sub(1);
    }
}

impl<S: Store> Fuse<S> {
    // Whether an operation on cell i may pass; a cell outside is told before the want of life.
    fn admit(&self, i: usize) -> Result<(), Fault>
        ensures { result ≡ burnt_answer self.now.left (length (S.Store.cells self.now.below)) i }
    {
        if self.left > 0 {
            Ok(())
        } else if i < self.below.count() {
            Err(Fault::NoLife)
        } else {
            Err(Fault::OutOfRange)
        }
    }
}

impl<S: Store> Store for Fuse<S> {
    type Cell = S::Cell;

    ghost cells = { λ s. S.Store.cells s.below };

    ghost life = { λ s. least s.left (S.Store.life s.below) };

    ghost Rest = { S.Store.Rest };

    ghost rest = { λ s. S.Store.rest s.below };

    fn count(&self) -> usize {
        self.below.count()
    }

    fn read(&mut self, i: usize) -> Result<S::Cell, Fault> {
        self.admit(i)?;
        let v = self.below.read(i)?;
        self.burn();
        Ok(v)
    }

    fn write(&mut self, i: usize, v: S::Cell) -> Result<(), Fault> {
        self.admit(i)?;
        self.below.write(i, v)?;
        self.burn();
        Ok(())
    }

    fn renew(&mut self, n: u32) {
        self.left = n;
        self.below.renew(n);
    }
}
