// The local stores of all clients: nested pairs of stores with one kind of cell, told by client number from 1.
#![tactic(auto)]

ghost use Rattle.std.specs.Prelude.{◌≡◌, min, List, [], ◌∷◌, length};
ghost use Rattle.store.specs.Lengths.{all_long};
ghost use Rattle.store.specs.Stores.{Stored, stored, read_answer, write_answer, after_read, after_write, after_renew};
ghost use Rattle.records.specs.Clients.{asked, changed};

use std::marker::PhantomData;
use store::{Cell, Fault, Store};

// A bank: one local store for each client.
pub trait Bank {
    // What is read and written whole, the same in every store.
    type Cell: Cell;

    // the stores, from client 1 on
    ghost stores: { Self → List (Stored Self.Cell) };

    // What the stores stand on besides their cells and lives; no operation changes it. (Each operation promises
    // that, since an invariant speaks of one moment only.)
    ghost Rest: { Type 0 };

    ghost rest: { Self → Rest };

    // The number of clients; of more than 4,294,967,295 that number.
    fn clients(&self) -> u32
        ensures { result ≡ min (length (stores self.now)) 4294967295 };

    // Whether each store has m cells.
    fn all_long(&self, m: usize) -> bool
        ensures { result ≡ all_long m (stores self.now) };

    // Cell i of client k's store; none where there is no such client.
    fn read(&mut self, k: u32, i: usize) -> Option<Result<Self::Cell, Fault>>
        ensures answer { result ≡ asked (λ s. read_answer s i) (stores self.old) k }
        ensures after { stores self.new ≡ changed (λ s. after_read s i) (stores self.old) k }
        ensures kept { rest self.new ≡ rest self.old };

    // Puts v at cell i of client k's store; none where there is no such client.
    fn write(&mut self, k: u32, i: usize, v: Self::Cell) -> Option<Result<(), Fault>>
        ensures answer { result ≡ asked (λ s. write_answer s i) (stores self.old) k }
        ensures after { stores self.new ≡ changed (λ s. after_write s i v) (stores self.old) k }
        ensures kept { rest self.new ≡ rest self.old };

    // Gives client k's store, if its life is numbered, n operations.
    fn renew(&mut self, k: u32, n: u32)
        ensures after { stores self.new ≡ changed (after_renew n) (stores self.old) k }
        ensures kept { rest self.new ≡ rest self.old };
}

// No client; it says of which kind the cells would be.
#[derive(Drop)]
pub struct End<T> {
    pub cell: PhantomData<T>,
}

impl<T: Cell> Bank for End<T> {
    type Cell = T;

    ghost stores = { λ _. [] };

    ghost Rest = { Unit {0} };

    ghost rest = { λ _. tt };

    fn clients(&self) -> u32 {
        0
    }

    fn all_long(&self, _m: usize) -> bool {
        true
    }

    fn read(&mut self, _k: u32, _i: usize) -> Option<Result<T, Fault>> {
        None
    }

    fn write(&mut self, _k: u32, _i: usize, _v: T) -> Option<Result<(), Fault>> {
        None
    }

    fn renew(&mut self, _k: u32, _n: u32) {}
}

// Client 1 has the first store; client k + 1 is client k of the rest. (Each operation has its own match: a
// function that took the operation as a closure would have a `requires`.)
impl<S: Store, R: Bank<Cell = S::Cell>> Bank for (S, R) {
    type Cell = S::Cell;

    ghost stores = { λ b. stored (S.Store.cells b.0) (S.Store.life b.0) ∷ R.Bank.stores b.1 };

    ghost Rest = { S.Store.Rest × R.Bank.Rest };

    ghost rest = { λ b. (S.Store.rest b.0, R.Bank.rest b.1) };

    fn clients(&self) -> u32 {
        self.1.clients().saturating_add(1)
    }

    fn all_long(&self, m: usize) -> bool {
        self.0.count() == m && self.1.all_long(m)
    }

    fn read(&mut self, k: u32, i: usize) -> Option<Result<S::Cell, Fault>> {
        match k {
            0 => None,
            1 => Some(self.0.read(i)),
            _ => self.1.read(k - 1, i),
        }
    }

    fn write(&mut self, k: u32, i: usize, v: S::Cell) -> Option<Result<(), Fault>> {
        match k {
            0 => None,
            1 => Some(self.0.write(i, v)),
            _ => self.1.write(k - 1, i, v),
        }
    }

    fn renew(&mut self, k: u32, n: u32) {
        match k {
            0 => {}
            1 => self.0.renew(n),
            _ => self.1.renew(k - 1, n),
        }
    }
}
