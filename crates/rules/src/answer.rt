// What is answered.
ghost use Rattle.std.specs.Prelude.{◌≡◌};
ghost use Rattle.rules.specs.Sources.{source_number};

use records::fault::{SiteFault, StoreFault};

// Where a read's cell came from.
#[derive(Clone, Copy, PartialEq, Eq, Debug)]
pub enum Source {
    // the local copy as it stood
    Cached = 1,
    // the local copy, once checked against the server's mark
    Checked = 2,
    // the disk
    Fetched = 3,
}

// The number under which the source is reported.
impl From<Source> for u8 {
    ghost from_gives = { λ source n. n ≡ source_number source };

    fn from(source: Source) -> u8 {
        source as u8
    }
}

// The answer to a call: 0 or the refusal's number; the cell that it is about; a session, a turn or a count; the
// number of a read's source, 0 but at an accepted read; a store's fault. (A row of a run, with the fields that the
// rules name: what a refusal says of itself is taken apart when the row is filled. The source is its number, and no
// `Option` of the enum, since a row that is lent or printed may hold any.)
#[derive(Clone, Copy, Default)]
pub struct Answer {
    pub number: u8,
    pub place: u32,
    pub value: u32,
    pub source: u8,
    pub fault: Option<StoreFault>,
}

// A sweep that was refused or stopped: why, the cell at which it stopped, and how many cells it had made absent.
#[derive(Clone, Copy)]
pub struct Stopped {
    pub fault: SiteFault,
    pub place: u32,
    pub value: u32,
}
