// Why a site is unfit, and why it refuses.
ghost use Rattle.std.specs.Prelude.{◌≡◌, ◌++◌, Some, codes, decimal};
ghost use Rattle.records.specs.Faults.{unfit_number, store_number, says};

use std::fmt;
use store::Fault;

// The first no at the making of a site.
#[derive(Clone, Copy)]
pub enum Unfit {
    DiskSize = 1,
    MarksSize = 2,
    ClientCount = 3,
    LocalSize = 4,
    MarkUnread = 5,
    MarkAbove = 6,
}

// Which of a site's stores refused.
#[derive(Clone, Copy)]
pub enum StoreName {
    Local = 18,
    Marks = 19,
    Disk = 20,
}

#[derive(Clone, Copy)]
pub enum Operation {
    Read,
    Write,
}

// A store that refused: which one, its cell, the operation, and the store's own fault.
#[derive(Clone, Copy)]
pub struct StoreFault {
    pub store: StoreName,
    pub cell: u32,
    pub operation: Operation,
    pub fault: Fault,
}

// Why a call, a step or a run is refused.
#[derive(Clone, Copy)]
pub enum SiteFault {
    Unfit,
    NoClient,
    Held,
    SessionsUsed,
    NotHolding,
    NoCell,
    JournalUsed,
    NotDirty,
    TurnsUsed,
    NoFlush,
    // the first cell that is dirty or in the journal
    Unsent(u32),
    Store(StoreFault),
    RowsUnequal,
    NoCall,
}

// The number of the question that got the no.
impl From<Unfit> for u8 {
    ghost from_gives = { λ unfit n. n ≡ unfit_number unfit };

    fn from(unfit: Unfit) -> u8 {
        unfit as u8
    }
}

// The number of the question whether that store accepted.
impl From<StoreName> for u8 {
    ghost from_gives = { λ store n. n ≡ store_number store };

    fn from(store: StoreName) -> u8 {
        store as u8
    }
}

// The number of the question that got the no.
impl From<SiteFault> for u8 {
    ghost from_gives = { λ fault n. n ≡ (says fault).number };

    fn from(fault: SiteFault) -> u8 {
        match fault {
            SiteFault::Unfit => 7,
            SiteFault::NoClient => 8,
            SiteFault::Held => 9,
            SiteFault::SessionsUsed => 10,
            SiteFault::NotHolding => 11,
            SiteFault::NoCell => 12,
            SiteFault::JournalUsed => 13,
            SiteFault::NotDirty => 14,
            SiteFault::TurnsUsed => 15,
            SiteFault::NoFlush => 16,
            SiteFault::Unsent(_) => 17,
            SiteFault::Store(f) => f.store.into(),
            SiteFault::RowsUnequal => 23,
            SiteFault::NoCall => 24,
        }
    }
}

// As programs print a refusal.
impl fmt::Display for SiteFault {
    ghost output = { λ fault. Some (codes "refused by " ++ decimal (says fault).number) };

    fn fmt<W: fmt::Write>(&self, f: &mut fmt::Formatter<W>) -> fmt::Result {
        write!(f, "refused by {}", u8::from(*self))
    }
}

impl SiteFault {
    // The place that the refusal names itself, if it names one.
    pub fn place(self) -> Option<u32>
        ensures { result ≡ (says self).place }
    {
        match self {
            SiteFault::Unsent(i) => Some(i),
            _ => None,
        }
    }

    // The store's fault that the refusal holds.
    pub fn held(self) -> Option<StoreFault>
        ensures { result ≡ (says self).held }
    {
        match self {
            SiteFault::Store(f) => Some(f),
            _ => None,
        }
    }
}
