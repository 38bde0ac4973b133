// The operations on a site's stores: what each answers, with a store's fault held whole.
ghost use Rattle.std.specs.Prelude.{◌≡◌};
ghost use Rattle.site.specs.Means.{site_rests, site_state};
ghost use Rattle.rules.specs.Site.{outcome, disk_read, disk_write, mark_read, mark_write, local_read, local_write};

use super::*;
use records::fault::{Operation, SiteFault, StoreFault, StoreName};
use store::Fault;

// The refusal that holds the fault of a store.
fn refused(store: StoreName, cell: u32, operation: Operation, fault: Fault) -> SiteFault
    ensures { result ≡ SiteFault.Store (record { store = store; cell = cell; operation = operation; fault = fault }) }
{
    SiteFault::Store(StoreFault {
        store,
        cell,
        operation,
        fault,
    })
}

// (The six differ in the store that they work and in what that makes of the site. What they share is `refused`;
// a generic read and write below them would only promise what `Store` does already. Those that read a cell tell the
// outcomes by one `match`, as `ok_or`, `?` and `map_err` would each move a sector on.)
impl<D: Store, M: Store<Cell = u32>, B: Bank<Cell = D::Cell>> Site<D, M, B> {
    // Cell i of the disk.
    pub(super) fn disk_read(&mut self, i: u32) -> Result<D::Cell, SiteFault>
        ensures does { outcome (site_state D.Store M.Store B.Bank self.new) result ≡ disk_read (site_state D.Store M.Store B.Bank self.old) i }
        ensures kept { site_rests D.Store M.Store B.Bank self.new ≡ site_rests D.Store M.Store B.Bank self.old }
    {
        match self.disk.read(i as usize) {
            Ok(v) => Ok(v),
            Err(e) => Err(refused(StoreName::Disk, i, Operation::Read, e)),
        }
    }

    // Puts v at cell i of the disk.
    pub(super) fn disk_write(&mut self, i: u32, v: D::Cell) -> Result<(), SiteFault>
        ensures does { outcome (site_state D.Store M.Store B.Bank self.new) result ≡ disk_write (site_state D.Store M.Store B.Bank self.old) i v }
        ensures kept { site_rests D.Store M.Store B.Bank self.new ≡ site_rests D.Store M.Store B.Bank self.old }
    {
        self.disk
            .write(i as usize, v)
            .map_err(|e| refused(StoreName::Disk, i, Operation::Write, e))
    }

    // The mark of disk cell i.
    pub(super) fn mark_read(&mut self, i: u32) -> Result<u32, SiteFault>
        ensures does { outcome (site_state D.Store M.Store B.Bank self.new) result ≡ mark_read (site_state D.Store M.Store B.Bank self.old) i }
        ensures kept { site_rests D.Store M.Store B.Bank self.new ≡ site_rests D.Store M.Store B.Bank self.old }
    {
        self.marks
            .read(i as usize)
            .map_err(|e| refused(StoreName::Marks, i, Operation::Read, e))
    }

    // The mark of disk cell i becomes n.
    pub(super) fn mark_write(&mut self, i: u32, n: u32) -> Result<(), SiteFault>
        ensures does { outcome (site_state D.Store M.Store B.Bank self.new) result ≡ mark_write (site_state D.Store M.Store B.Bank self.old) i n }
        ensures kept { site_rests D.Store M.Store B.Bank self.new ≡ site_rests D.Store M.Store B.Bank self.old }
    {
        self.marks
            .write(i as usize, n)
            .map_err(|e| refused(StoreName::Marks, i, Operation::Write, e))
    }

    // Cell i of client k's local store.
    pub(super) fn local_read(&mut self, k: u32, i: u32) -> Result<D::Cell, SiteFault>
        ensures does { outcome (site_state D.Store M.Store B.Bank self.new) result ≡ local_read (site_state D.Store M.Store B.Bank self.old) k i }
        ensures kept { site_rests D.Store M.Store B.Bank self.new ≡ site_rests D.Store M.Store B.Bank self.old }
    {
        match self.bank.read(k, i as usize) {
            None => Err(SiteFault::NoClient),
            Some(Ok(v)) => Ok(v),
            Some(Err(e)) => Err(refused(StoreName::Local, i, Operation::Read, e)),
        }
    }

    // Puts v at cell i of client k's local store.
    pub(super) fn local_write(&mut self, k: u32, i: u32, v: D::Cell) -> Result<(), SiteFault>
        ensures does { outcome (site_state D.Store M.Store B.Bank self.new) result ≡ local_write (site_state D.Store M.Store B.Bank self.old) k i v }
        ensures kept { site_rests D.Store M.Store B.Bank self.new ≡ site_rests D.Store M.Store B.Bank self.old }
    {
        self.bank
            .write(k, i as usize, v)
            .ok_or(SiteFault::NoClient)?
            .map_err(|e| refused(StoreName::Local, i, Operation::Write, e))
    }
}
