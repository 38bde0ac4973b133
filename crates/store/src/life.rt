// The life of a store, and why a store refuses.
ghost use Rattle.std.specs.Prelude.{◌≡◌, Some};
ghost use Rattle.store.specs.Stores.{fault_number, fault_text};

use std::fmt;

// How many operations a store has left. A power cut at an operation is a life that runs out there.
// An enum of its own: `None` would read as no life where it means an endless one.
#[derive(Clone, Copy)]
pub enum Life {
    Endless,
    Left(u32),
}

// Why a store refuses a read or a write.
#[derive(Clone, Copy, PartialEq, Eq, Debug)]
pub enum Fault {
    // the cell is not below the count
    OutOfRange = 21,
    // no life is left
    NoLife = 22,
}

impl From<Fault> for u8 {
    // the number under which the refusal is reported
    ghost from_gives = { λ fault number. number ≡ fault_number fault };

    fn from(fault: Fault) -> u8 {
        fault as u8
    }
}

impl fmt::Display for Fault {
    // the reason in words
    ghost output = { λ fault. Some (fault_text fault) };

    fn fmt<W: fmt::Write>(&self, f: &mut fmt::Formatter<W>) -> fmt::Result {
        match self {
            Fault::OutOfRange => f.write_str("there is no such cell"),
            Fault::NoLife => f.write_str("no life is left"),
        }
    }
}
