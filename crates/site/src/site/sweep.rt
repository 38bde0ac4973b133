// The sweep: each kept cell, clean and out of the journal, is held against the server's mark.
ghost use Rattle.std.specs.Prelude.{◌≡◌};
ghost use Rattle.site.specs.Means.{site_rests, site_state};
ghost use Rattle.rules.specs.Site.{outcome};
ghost use Rattle.rules.specs.Calls.{sweep_cell, sweep_from, sweeping};

use super::*;
use records::events::{Event, Reaction};
use records::fault::SiteFault;
use rules::answer::Stopped;

impl<D: Store, M: Store<Cell = u32>, B: Bank<Cell = D::Cell>> Site<D, M, B> {
    // Holds cell i of client k against its mark; answers whether it became absent.
    #[tactic(auto, unfolding(rules::specs::Calls::sweep_cell))]
    fn sweep_cell(&mut self, k: u32, i: u32) -> Result<bool, SiteFault>
        ensures does { outcome (site_state D.Store M.Store B.Bank self.new) result ≡ sweep_cell (site_state D.Store M.Store B.Bank self.old) k i }
        ensures kept { site_rests D.Store M.Store B.Bank self.new ≡ site_rests D.Store M.Store B.Bank self.old }
    {
        let Some(mut cell) = self.table.cell(k, i) else {
            return Ok(false);
        };
        if !cell.is_swept(self.table.in_journal(k, i)) {
            return Ok(false);
        }
        let mark = self.mark_read(i)?;
        let reaction = cell.react(Event::Sweep { mark });
        self.table.put(k, i, cell);
        Ok(matches!(reaction, Reaction::Forget))
    }

    // Sweeps the m cells of client k, from 0, up to a mark that cannot be read.
    #[tactic(auto, using(crate::proofs::Sweeping::sweep_none, crate::proofs::Sweeping::byte_le))]
    pub(super) fn sweep_all(&mut self, k: u32, m: u32) -> Result<u32, Stopped>
        ensures does { sweeping (site_state D.Store M.Store B.Bank self.new) result ≡ sweep_from k m (site_state D.Store M.Store B.Bank self.old) 0 0 }
        ensures kept { site_rests D.Store M.Store B.Bank self.new ≡ site_rests D.Store M.Store B.Bank self.old }
    {
        let mut value = 0;
        for i in 0..m {
            let forgot = self.sweep_cell(k, i).map_err(move |fault| Stopped {
                fault,
                place: i,
                value,
            })?;
            value += u32::from(forgot);
        }
        Ok(value)
    }
}
