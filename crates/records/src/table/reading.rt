// What the table says of a client and a cell. Any numbers may be asked for. (Two numbers and no pair, here and in
// the calls, since each has a question of its own.)
ghost use Rattle.std.specs.Prelude.{◌≡◌};
ghost use Rattle.records.specs.Records.{new_records, client_of, cell_of, journal_of, note_of, turn_of, flushing, is_in_journal, unsent_at, names};
ghost use Rattle.records.specs.Shape.{FixedSize, Stands};
ghost use Rattle.std.specs.Option.{option_copied};

use super::Table;
use crate::fault::Unfit;
use crate::records::{CellRecord, ClientRecord, Flush};

impl Table {
    // The records of a new site: nobody holds, and every cell is absent, unchecked and clean.
    #[tactic(auto, unfolding(crate::specs::Records::new_clients))]
    pub fn new(unfit: Option<Unfit>, size: u32, count: u32, session: u32) -> Table
        ensures { result ≡ new_records unfit size count session }
    {
        Table {
            unfit,
            size,
            count,
            session,
            holder: None,
            clients: [ClientRecord::new(); 8],
        }
    }

    // Why the site is unfit, if it is.
    pub fn unfit(&self) -> Option<Unfit>
        ensures { result ≡ self.now.unfit }
    {
        self.unfit
    }

    // The number of cells. (And what holds of every table: it has 8 clients, each with 1,024 records of cells.)
    pub fn size(&self) -> u32
        ensures size { result ≡ self.now.size }
        ensures fixed { FixedSize self.now.clients }
    {
        self.size
    }

    // The latest session.
    pub fn session(&self) -> u32
        ensures { result ≡ self.now.session }
    {
        self.session
    }

    // Where the record of client k stands in the table, if it is there.
    pub(super) fn place(&self, k: u32) -> Option<usize>
        ensures { Stands self.now.clients k result }
    {
        let p = (k as usize).checked_sub(1)?;
        self.clients.get(p)?;
        Some(p)
    }

    // Client k's record, if the table has it.
    #[tactic(auto, using(crate::proofs::Tables::client_in, crate::proofs::Tables::client_out))]
    fn client(&self, k: u32) -> Option<&ClientRecord>
        ensures { option_copied result ≡ client_of self.now k }
    {
        let p = self.place(k)?;
        Some(&self.clients[p])
    }

    // What client k knows of cell i, if the table has them.
    #[tactic(auto, using(crate::proofs::Tables::item_copied, crate::proofs::Tables::cell_is))]
    pub fn cell(&self, k: u32, i: u32) -> Option<CellRecord>
        ensures { result ≡ cell_of self.now k i }
    {
        self.client(k)?.cells.get(i as usize).copied()
    }

    // The cell in client k's journal.
    #[tactic(auto, using(crate::proofs::Tables::journal_is))]
    pub fn journal(&self, k: u32) -> Option<u32>
        ensures { result ≡ journal_of self.now k }
    {
        self.client(k)?.journal
    }

    // Client k's note, a slip that a run has put aside. (A slip is the token that a begun flush gives out.)
    #[tactic(auto, using(crate::proofs::Tables::note_is))]
    pub(super) fn noted(&self, k: u32) -> Option<Flush>
        ensures { result ≡ note_of self.now k }
    {
        self.client(k)?.note
    }

    // Client k's turn: how many flushes it has begun.
    #[tactic(auto, using(crate::proofs::Tables::turn_is))]
    pub(super) fn turn(&self, k: u32) -> u32
        ensures { result ≡ turn_of self.now k }
    {
        self.client(k).map_or(0, |c| c.turn)
    }

    // Whether that flush is in its client's journal.
    #[tactic(auto, using(crate::proofs::Tables::flushing_is))]
    pub(super) fn flushing(&self, flush: Flush) -> bool
        ensures { result ≡ flushing self.now flush.client flush.cell flush.turn }
    {
        self.client(flush.client)
            .is_some_and(|c| c.is_flushing(flush))
    }

    // Whether cell i is in client k's journal.
    pub fn in_journal(&self, k: u32, i: u32) -> bool
        ensures { result ≡ is_in_journal self.now k i }
    {
        self.journal(k) == Some(i)
    }

    // Whether cell i of client k is dirty or in the journal.
    pub(super) fn unsent(&self, k: u32, i: u32) -> bool
        ensures { result ≡ unsent_at self.now k i }
    {
        self.cell(k, i).is_some_and(|r| r.dirty) || self.in_journal(k, i)
    }

    // Whether client k holds the session.
    pub(super) fn holds(&self, k: u32) -> bool
        ensures { result ≡ names self.now.holder k }
    {
        self.holder == Some(k)
    }
}
