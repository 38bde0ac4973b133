// What each call does: the questions, the operations in their order, and the change of the records last.
ghost use Rattle.std.specs.Prelude.{◌≡◌};
ghost use Rattle.site.specs.Means.{site_rests, site_state};
ghost use Rattle.site.specs.Slips.{begin_given, settled, commit_flush, commit_given};
ghost use Rattle.rules.specs.Site.{outcome};
ghost use Rattle.rules.specs.Calls.{open_call, read_local, read_confirmed, read_fetched, read_call, write_call, give_up_call, close_call, sweeping, invalidate_call, restart_client_call, restart_server_call};

use super::*;
use crate::slip::{Returned, Slip};
use records::events::{Event, Reaction};
use records::fault::SiteFault;
use records::records::{CellRecord, Flush};
use rules::answer::{Source, Stopped};
use store::Cell;

impl<D: Store, M: Store<Cell = u32>, B: Bank<Cell = D::Cell>> Site<D, M, B> {
    pub(crate) fn do_open(&mut self, k: u32) -> Result<u32, SiteFault>
        ensures does { outcome (site_state D.Store M.Store B.Bank self.new) result ≡ open_call (site_state D.Store M.Store B.Bank self.old) k }
        ensures kept { site_rests D.Store M.Store B.Bank self.new ≡ site_rests D.Store M.Store B.Bank self.old }
    {
        let session = self.table.opening(k)?;
        self.table.open(k, session);
        Ok(session)
    }

    // The cell read, and its source.
    pub(crate) fn do_read(&mut self, k: u32, i: u32) -> Result<(D::Cell, Source), SiteFault>
        ensures does { outcome (site_state D.Store M.Store B.Bank self.new) result ≡ read_call (site_state D.Store M.Store B.Bank self.old) k i }
        ensures kept { site_rests D.Store M.Store B.Bank self.new ≡ site_rests D.Store M.Store B.Bank self.old }
    {
        let mut cell = self.table.admitted(k, i)?;
        let in_journal = self.table.in_journal(k, i);
        if let Reaction::Local = cell.react(Event::Read {
            in_journal,
            mark: None,
        }) {
            return self.read_local(k, i);
        }
        let mark = Some(self.mark_read(i)?);
        match cell.react(Event::Read { in_journal, mark }) {
            Reaction::Confirm => self.read_confirmed(k, i, cell),
            _ => self.read_fetched(k, i, cell),
        }
    }

    #[tactic(auto, unfolding(rules::specs::Calls::read_local))]
    fn read_local(&mut self, k: u32, i: u32) -> Result<(D::Cell, Source), SiteFault>
        ensures does { outcome (site_state D.Store M.Store B.Bank self.new) result ≡ read_local (site_state D.Store M.Store B.Bank self.old) k i }
        ensures kept { site_rests D.Store M.Store B.Bank self.new ≡ site_rests D.Store M.Store B.Bank self.old }
    {
        let v = self.local_read(k, i)?;
        Ok((v, Source::Cached))
    }

    #[tactic(auto, unfolding(rules::specs::Calls::read_confirmed))]
    fn read_confirmed(
        &mut self,
        k: u32,
        i: u32,
        cell: CellRecord,
    ) -> Result<(D::Cell, Source), SiteFault>
        ensures does { outcome (site_state D.Store M.Store B.Bank self.new) result ≡ read_confirmed (site_state D.Store M.Store B.Bank self.old) k i cell }
        ensures kept { site_rests D.Store M.Store B.Bank self.new ≡ site_rests D.Store M.Store B.Bank self.old }
    {
        let v = self.local_read(k, i)?;
        self.table.put(k, i, cell);
        Ok((v, Source::Checked))
    }

    #[tactic(auto, unfolding(rules::specs::Calls::read_fetched))]
    fn read_fetched(
        &mut self,
        k: u32,
        i: u32,
        cell: CellRecord,
    ) -> Result<(D::Cell, Source), SiteFault>
        ensures does { outcome (site_state D.Store M.Store B.Bank self.new) result ≡ read_fetched (site_state D.Store M.Store B.Bank self.old) k i cell }
        ensures kept { site_rests D.Store M.Store B.Bank self.new ≡ site_rests D.Store M.Store B.Bank self.old }
    {
        let v = self.disk_read(i)?;
        self.local_write(k, i, v)?;
        self.table.put(k, i, cell);
        Ok((v, Source::Fetched))
    }

    // (It goes into its caller, so that a sector is not moved on.)
    #[inline(always)]
    pub(crate) fn do_write(&mut self, k: u32, i: u32, v: D::Cell) -> Result<(), SiteFault>
        ensures does { outcome (site_state D.Store M.Store B.Bank self.new) result ≡ write_call (site_state D.Store M.Store B.Bank self.old) k i v }
        ensures kept { site_rests D.Store M.Store B.Bank self.new ≡ site_rests D.Store M.Store B.Bank self.old }
    {
        let mut cell = self.table.admitted(k, i)?;
        let session = self.table.session();
        let _ = cell.react(Event::Write { session });
        self.local_write(k, i, v)?;
        self.table.put(k, i, cell);
        Ok(())
    }

    pub(crate) fn do_begin(&mut self, k: u32, i: u32) -> Result<Slip, SiteFault>
        ensures does { outcome (site_state D.Store M.Store B.Bank self.new) result ≡ begin_given (site_state D.Store M.Store B.Bank self.old) k i }
        ensures kept { site_rests D.Store M.Store B.Bank self.new ≡ site_rests D.Store M.Store B.Bank self.old }
    {
        let (cell, turn) = self.table.beginning(k, i)?;
        let journal = self.table.size();
        let v = self.local_read(k, i)?;
        self.local_write(k, journal, v)?;
        self.table.begin(k, i, cell, turn);
        Ok(Slip::new(Flush {
            client: k,
            cell: i,
            turn,
        }))
    }

    fn commit_flush(&mut self, flush: Flush) -> Result<(), SiteFault>
        ensures does { outcome (site_state D.Store M.Store B.Bank self.new) result ≡ commit_flush D.Cell.Cell.empty (site_state D.Store M.Store B.Bank self.old) flush }
        ensures kept { site_rests D.Store M.Store B.Bank self.new ≡ site_rests D.Store M.Store B.Bank self.old }
    {
        self.table.committing(flush)?;
        let Flush { client, cell, .. } = flush;
        let journal = self.table.size();
        let session = self.table.session();
        let v = self.local_read(client, journal)?;
        self.mark_write(cell, session)?;
        self.disk_write(cell, v)?;
        self.local_write(client, journal, D::Cell::blank())?;
        self.table.empty_journal(client);
        Ok(())
    }

    pub(crate) fn do_commit(&mut self, slip: Slip) -> Result<(), Returned>
        ensures does { settled (site_state D.Store M.Store B.Bank self.new) result ≡ commit_given D.Cell.Cell.empty (site_state D.Store M.Store B.Bank self.old) slip }
        ensures kept { site_rests D.Store M.Store B.Bank self.new ≡ site_rests D.Store M.Store B.Bank self.old }
    {
        match self.commit_flush(slip.flush()) {
            Ok(()) => {
                let _ = slip.spend();
                Ok(())
            }
            Err(fault) => Err(Returned { slip, fault }),
        }
    }

    pub(crate) fn do_give_up(&mut self, slip: Slip) -> Result<(), SiteFault>
        ensures does { outcome (site_state D.Store M.Store B.Bank self.new) result ≡ give_up_call (site_state D.Store M.Store B.Bank self.old) slip.flush.client slip.flush.cell slip.flush.turn }
        ensures kept { site_rests D.Store M.Store B.Bank self.new ≡ site_rests D.Store M.Store B.Bank self.old }
    {
        let flush = slip.spend();
        self.table.giving_up(flush)?;
        self.table.give_up(flush.client, flush.cell);
        Ok(())
    }

    pub(crate) fn do_close(&mut self, k: u32) -> Result<(), SiteFault>
        ensures does { outcome (site_state D.Store M.Store B.Bank self.new) result ≡ close_call (site_state D.Store M.Store B.Bank self.old) k }
        ensures kept { site_rests D.Store M.Store B.Bank self.new ≡ site_rests D.Store M.Store B.Bank self.old }
    {
        self.table.closing(k)?;
        self.table.close(k);
        Ok(())
    }

    pub(crate) fn do_invalidate(&mut self, k: u32) -> Result<u32, Stopped>
        ensures does { sweeping (site_state D.Store M.Store B.Bank self.new) result ≡ invalidate_call (site_state D.Store M.Store B.Bank self.old) k }
        ensures kept { site_rests D.Store M.Store B.Bank self.new ≡ site_rests D.Store M.Store B.Bank self.old }
    {
        let refused = |fault| Stopped {
            fault,
            place: 0,
            value: 0,
        };
        self.table.holding(k).map_err(refused)?;
        let m = self.table.size();
        self.sweep_all(k, m)
    }

    pub(crate) fn do_restart_client(&mut self, k: u32, n: u32) -> Result<(), SiteFault>
        ensures does { outcome (site_state D.Store M.Store B.Bank self.new) result ≡ restart_client_call (site_state D.Store M.Store B.Bank self.old) k n }
        ensures kept { site_rests D.Store M.Store B.Bank self.new ≡ site_rests D.Store M.Store B.Bank self.old }
    {
        self.table.present(k)?;
        self.bank.renew(k, n);
        self.table.restart(k);
        Ok(())
    }

    pub(crate) fn do_restart_server(&mut self, n: u32, m: u32) -> Result<(), SiteFault>
        ensures does { outcome (site_state D.Store M.Store B.Bank self.new) result ≡ restart_server_call (site_state D.Store M.Store B.Bank self.old) n m }
        ensures kept { site_rests D.Store M.Store B.Bank self.new ≡ site_rests D.Store M.Store B.Bank self.old }
    {
        self.table.fit()?;
        self.disk.renew(n);
        self.marks.renew(m);
        Ok(())
    }
}
