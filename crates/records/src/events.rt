// What happens to a cell, and what becomes of a client's record of it.
ghost use Rattle.std.specs.Prelude.{◌≡◌};
ghost use Rattle.records.specs.Cells.{settled, sweeps};
ghost use Rattle.records.specs.Events.{reaction, reacted};

use crate::records::CellRecord;

// What happens to one cell of a client. The mark of a cell is the session in which the server's cell was
// last written.
#[derive(Clone, Copy)]
pub enum Event {
    // the client reads it; the mark is the server's, once that has been read
    Read { in_journal: bool, mark: Option<u32> },
    // the client writes it in that session
    Write { session: u32 },
    // its flush begins: the cell goes into the journal
    Begin,
    // it is held against the server's mark, and goes if it is older
    Sweep { mark: u32 },
    // the client starts again with nothing checked, and gets back what was in the journal
    Restart { in_journal: bool },
}

// What the client has to do after an event.
#[derive(Clone, Copy)]
pub enum Reaction {
    // read the local copy, which counts as it is
    Local,
    // read the server's mark, and come again with it
    Ask,
    // go on with the local copy, which is as new as the server's cell
    Confirm,
    // read the server's cell and keep it
    Fetch,
    // nothing: the record has changed, and that is all
    Change,
    // nothing: the local copy is older than the server's cell, and counts no longer
    Forget,
}

impl CellRecord {
    // Whether a sweep reads the cell's mark.
    pub fn is_swept(&self, in_journal: bool) -> bool
        ensures { result ≡ sweeps self.now in_journal }
    {
        self.kept.is_some() && !self.dirty && !in_journal
    }

    // Whether the local copy counts as it is: the cell is dirty, in the journal, or kept and checked.
    fn is_settled(&self, in_journal: bool) -> bool
        ensures { result ≡ settled self.now in_journal }
    {
        self.dirty || in_journal || (self.kept.is_some() && self.checked)
    }

    // Changes the record as the event says. A read of a cell that is settled needs no mark.
    pub fn react(&mut self, event: Event) -> Reaction
        ensures answer { result ≡ reaction self.old event }
        ensures left { self.new ≡ reacted self.old event }
    {
        match (*self, event) {
            (r, Event::Read { in_journal, .. }) if r.is_settled(in_journal) => Reaction::Local,
            (_, Event::Read { mark: None, .. }) => Reaction::Ask,
            (CellRecord { kept: Some(m), .. }, Event::Read { mark: Some(s), .. }) if m >= s => {
                self.checked = true;
                Reaction::Confirm
            }
            (_, Event::Read { mark: Some(s), .. }) => {
                self.kept = Some(s);
                self.checked = true;
                Reaction::Fetch
            }
            (_, Event::Write { session }) => {
                self.kept = Some(session);
                self.checked = true;
                self.dirty = true;
                Reaction::Change
            }
            (_, Event::Begin) => {
                self.dirty = false;
                Reaction::Change
            }
            (CellRecord { kept: Some(m), .. }, Event::Sweep { mark }) if m >= mark => {
                self.checked = true;
                Reaction::Confirm
            }
            (_, Event::Sweep { .. }) => {
                self.kept = None;
                Reaction::Forget
            }
            (_, Event::Restart { in_journal }) => {
                self.checked = false;
                self.dirty = self.dirty || in_journal;
                Reaction::Change
            }
        }
    }
}
