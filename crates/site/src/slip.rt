// Slips. A slip is the token that a begun flush gives out: it names the client, the cell and the turn, and is
// handed in exactly once, to commit, give up or the note.
ghost use Rattle.std.specs.Prelude.{◌≡◌, true};
ghost use Rattle.site.specs.Slips.{unspent};

use records::fault::SiteFault;
use records::records::Flush;

// The right to finish a flush. It cannot be copied, and may be let go only once it is spent, which only a
// site does, when the slip is handed in.
// (A flag, and not a second type for the spent: the slip's drop asks for it.)
pub struct Slip {
    flush: Flush,
    spent: bool,
}

impl Drop for Slip {
    fn drop(self)
        requires { self.spent ≡ true }
    {
        let Slip { flush: _, spent: _ } = self;
    }
}

impl Slip {
    // The numbers of the flush that the slip names.
    pub fn flush(&self) -> Flush
        ensures { result ≡ self.now.flush }
    {
        self.flush
    }

    pub(crate) fn new(flush: Flush) -> Slip
        ensures { result ≡ unspent flush }
    {
        Slip {
            flush,
            spent: false,
        }
    }

    pub(crate) fn spend(self) -> Flush
        ensures { result ≡ self.flush }
    {
        let mut slip = self;
        slip.spent = true;
        slip.flush
    }
}

// A refused commit: the slip comes back with the refusal.
pub struct Returned {
    pub slip: Slip,
    pub fault: SiteFault,
}
