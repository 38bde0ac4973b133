// A client's record: what it says of a flush, and how it changes, in place. A change of a cell that it has not
// leaves the cells as they are. (Cells are told by index, as `get_mut` says nothing of what the cells end as.)
ghost use Rattle.std.specs.Prelude.{◌≡◌, slice_set};
ghost use Rattle.records.specs.Records.{new_client, flush_is, with_cells, unchecked_client, begun_client, given_up_client, revived, restarted_client};

use crate::events::Event;
use crate::records::{CellRecord, ClientRecord, Flush};

impl ClientRecord {
    // The record of a client on a new site.
    #[tactic(auto, unfolding(crate::specs::Records::new_client))]
    pub(super) fn new() -> ClientRecord
        ensures { result ≡ new_client }
    {
        ClientRecord {
            cells: [CellRecord::default(); 1024],
            journal: None,
            turn: 0,
            note: None,
        }
    }

    // Whether the cell of that flush is in the journal, at the flush's turn.
    pub(super) fn is_flushing(&self, flush: Flush) -> bool
        ensures { result ≡ flush_is self.now flush.cell flush.turn }
    {
        self.journal == Some(flush.cell) && self.turn == flush.turn
    }

    // The record of cell i becomes r.
    pub(super) fn put(&mut self, i: u32, r: CellRecord)
        ensures { self.new ≡ with_cells self.old (slice_set self.old.cells i r) }
    {
        let i = i as usize;
        if i < self.cells.len() {
            self.cells[i] = r;
        }
    }

    // All cells become unchecked.
    #[tactic(auto, using(crate::proofs::InPlace::half_none, crate::proofs::InPlace::half_more, crate::proofs::InPlace::half_all))]
    pub(super) fn uncheck(&mut self)
        ensures { self.new ≡ unchecked_client self.old }
    {
        // by index, so that an edit that leaves out the last cell is refused for that: a loop over some of the cells,
        // `&mut self.cells[0..n]`, gets no proof, right or wrong
        for i in 0..self.cells.len() {
            self.cells[i].checked = false;
        }
    }

    // Cell i, whose record was r, stops being dirty and is in the journal, and the turn is n.
    pub(super) fn begin(&mut self, i: u32, mut r: CellRecord, n: u32)
        ensures { self.new ≡ begun_client self.old i r n }
    {
        let _ = r.react(Event::Begin);
        self.put(i, r);
        self.journal = Some(i);
        self.turn = n;
    }

    // Cell i becomes dirty, and the journal empty.
    pub(super) fn give_up(&mut self, i: u32)
        ensures { self.new ≡ given_up_client self.old i }
    {
        let i = i as usize;
        if i < self.cells.len() {
            self.cells[i].dirty = true;
        }
        self.journal = None;
    }

    // A cell in the journal starts again.
    fn revive(&mut self)
        ensures { self.new ≡ with_cells self.old (revived self.old.cells self.old.journal) }
    {
        if let Some(j) = self.journal {
            let j = j as usize;
            if j < self.cells.len() {
                let _ = self.cells[j].react(Event::Restart { in_journal: true });
            }
        }
    }

    // The client starts again: a cell in its journal becomes dirty, journal and note are empty, and nothing is
    // checked.
    #[tactic(auto, using(crate::proofs::InPlace::unchecked_revived))]
    pub(super) fn restart(&mut self)
        ensures { self.new ≡ restarted_client self.old }
    {
        self.revive();
        self.journal = None;
        self.note = None;
        self.uncheck();
    }
}
