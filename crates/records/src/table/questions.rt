// The questions that are asked of the records, in their order: the first no gives its refusal.
ghost use Rattle.std.specs.Prelude.{◌≡◌};
ghost use Rattle.records.specs.Records.{note_of, unsent_at};
ghost use Rattle.records.specs.Questions.{fit, there, present, holding, admitted, opening, beginning, committing, giving_up, first_from, closing, taken_up, taking_to_commit, taking_to_give_up};

use super::Table;
use crate::fault::SiteFault;
use crate::records::{CellRecord, Flush};

impl Table {
    // Is the site fit?
    pub fn fit(&self) -> Result<(), SiteFault>
        ensures { result ≡ fit self.now }
    {
        if self.unfit.is_some() {
            return Err(SiteFault::Unfit);
        }
        Ok(())
    }

    // Is client k there?
    fn is_there(&self, k: u32) -> bool
        ensures { result ≡ there self.now k }
    {
        0 < k && k <= self.count
    }

    // Is the site fit, and client k there?
    pub fn present(&self, k: u32) -> Result<(), SiteFault>
        ensures { result ≡ present self.now k }
    {
        self.fit()?;
        if !self.is_there(k) {
            return Err(SiteFault::NoClient);
        }
        Ok(())
    }

    // Is client k there, and does it hold the session?
    pub fn holding(&self, k: u32) -> Result<(), SiteFault>
        ensures { result ≡ holding self.now k }
    {
        self.present(k)?;
        if !self.holds(k) {
            return Err(SiteFault::NotHolding);
        }
        Ok(())
    }

    // Does client k hold, and is cell i below the number of cells? Gives the cell's record.
    pub fn admitted(&self, k: u32, i: u32) -> Result<CellRecord, SiteFault>
        ensures { result ≡ admitted self.now k i }
    {
        self.holding(k)?;
        if i >= self.size {
            return Err(SiteFault::NoCell);
        }
        self.cell(k, i).ok_or(SiteFault::NoCell)
    }

    // May client k open? Gives the next session.
    pub fn opening(&self, k: u32) -> Result<u32, SiteFault>
        ensures { result ≡ opening self.now k }
    {
        self.present(k)?;
        if self.holder.is_some() {
            return Err(SiteFault::Held);
        }
        self.session.checked_add(1).ok_or(SiteFault::SessionsUsed)
    }

    // May client k begin a flush of cell i? Gives the cell's record and the next turn.
    pub fn beginning(&self, k: u32, i: u32) -> Result<(CellRecord, u32), SiteFault>
        ensures { result ≡ beginning self.now k i }
    {
        let r = self.admitted(k, i)?;
        if self.journal(k).is_some() {
            return Err(SiteFault::JournalUsed);
        }
        if !r.dirty {
            return Err(SiteFault::NotDirty);
        }
        let turn = self.turn(k).checked_add(1).ok_or(SiteFault::TurnsUsed)?;
        Ok((r, turn))
    }

    // Is that flush in its client's journal? Whether the client holds is not asked.
    pub fn giving_up(&self, flush: Flush) -> Result<(), SiteFault>
        ensures { result ≡ giving_up self.now flush.client flush.cell flush.turn }
    {
        if !self.flushing(flush) {
            return Err(SiteFault::NoFlush);
        }
        Ok(())
    }

    // Does the flush's client hold, and is that flush in its journal?
    pub fn committing(&self, flush: Flush) -> Result<(), SiteFault>
        ensures { result ≡ committing self.now flush.client flush.cell flush.turn }
    {
        self.holding(flush.client)?;
        self.giving_up(flush)
    }

    // The first cell of client k that is dirty or in the journal.
    fn first_unsent(&self, k: u32) -> Option<u32>
        ensures { result ≡ first_from (unsent_at self.now k) self.now.size 0 }
    {
        (0..self.size()).find(|i| self.unsent(k, *i))
    }

    // May client k close: is nothing dirty, and the journal empty?
    pub fn closing(&self, k: u32) -> Result<(), SiteFault>
        ensures { result ≡ closing self.now k }
    {
        self.holding(k)?;
        match self.first_unsent(k) {
            None => Ok(()),
            Some(i) => Err(SiteFault::Unsent(i)),
        }
    }

    // The slip that client k has noted.
    fn taken_up(&self, k: u32) -> Result<Flush, SiteFault>
        ensures { result ≡ taken_up (note_of self.now k) }
    {
        self.noted(k).ok_or(SiteFault::NoFlush)
    }

    // A run's commit: does client k hold? Gives the slip that it has noted.
    pub fn taking_to_commit(&self, k: u32) -> Result<Flush, SiteFault>
        ensures { result ≡ taking_to_commit self.now k }
    {
        self.holding(k)?;
        self.taken_up(k)
    }

    // A run's giving up: is client k there? Gives the slip that it has noted.
    pub fn taking_to_give_up(&self, k: u32) -> Result<Flush, SiteFault>
        ensures { result ≡ taking_to_give_up self.now k }
    {
        self.present(k)?;
        self.taken_up(k)
    }
}
