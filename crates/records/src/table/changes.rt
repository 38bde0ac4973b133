// How the records change, each in its place. A change of a client or a cell that the table has not leaves
// it as it is. (Each finds the client's record for itself: one function that took the change as a closure would
// have a `requires`.)
ghost use Rattle.std.specs.Prelude.{◌≡◌};
ghost use Rattle.records.specs.Records.{with_cell, noted, unchecked, opened, closed, begun, emptied, given_up, restarted};

use super::Table;
use crate::records::{CellRecord, Flush};

#[tactic(auto, using(crate::proofs::Tables::change_in, crate::proofs::Tables::change_out))]
impl Table {
    // Client k's record of cell i becomes r.
    pub fn put(&mut self, k: u32, i: u32, r: CellRecord)
        ensures { self.new ≡ with_cell self.old k i r }
    {
        if let Some(p) = self.place(k) {
            self.clients[p].put(i, r);
        }
    }

    // Client k's note becomes n. (The note is a slip that a run has put aside.)
    pub fn note(&mut self, k: u32, n: Option<Flush>)
        ensures { self.new ≡ noted self.old k n }
    {
        if let Some(p) = self.place(k) {
            self.clients[p].note = n;
        }
    }

    // Client k's journal becomes empty.
    pub fn empty_journal(&mut self, k: u32)
        ensures { self.new ≡ emptied self.old k }
    {
        if let Some(p) = self.place(k) {
            self.clients[p].journal = None;
        }
    }

    // All cells of client k become unchecked.
    fn uncheck(&mut self, k: u32)
        ensures { self.new ≡ unchecked self.old k }
    {
        if let Some(p) = self.place(k) {
            self.clients[p].uncheck();
        }
    }

    // Client k holds session n, with nothing checked.
    pub fn open(&mut self, k: u32, n: u32)
        ensures { self.new ≡ opened self.old k n }
    {
        self.session = n;
        self.holder = Some(k);
        self.uncheck(k);
    }

    // Nobody holds, and client k has nothing checked.
    pub fn close(&mut self, k: u32)
        ensures { self.new ≡ closed self.old k }
    {
        self.holder = None;
        self.uncheck(k);
    }

    // Cell i, which client k knows as r, stops being dirty and is in the journal, and the turn is n. (The turn is
    // how many flushes the client has begun.)
    pub fn begin(&mut self, k: u32, i: u32, r: CellRecord, n: u32)
        ensures { self.new ≡ begun self.old k i r n }
    {
        if let Some(p) = self.place(k) {
            self.clients[p].begin(i, r, n);
        }
    }

    // Cell i of client k becomes dirty, and the journal empty.
    pub fn give_up(&mut self, k: u32, i: u32)
        ensures { self.new ≡ given_up self.old k i }
    {
        if let Some(p) = self.place(k) {
            self.clients[p].give_up(i);
        }
    }

    // Client k starts again: a cell in its journal becomes dirty, journal and note are empty, and nothing is
    // checked.
    pub fn restart(&mut self, k: u32)
        ensures { self.new ≡ restarted self.old k }
    {
        if let Some(p) = self.place(k) {
            self.clients[p].restart();
        }
    }
}
