// What a caller may conclude from the promises of a site's calls alone, and how it handles slips.
#![tactic(auto)]

ghost use Rattle.std.specs.Prelude.{◌≡◌};
ghost use Rattle.rules.specs.Site.{outcome};
ghost use Rattle.site_client.specs.Echo.{Echoes};
ghost use Rattle.site_client.specs.Undone.{undone};

use bank::Bank;
use records::fault::SiteFault;
use site::{Calls, Returned, Site, Slip};
use store::{Cell, Store};

// Makes a site, opens, writes v to cell 0 and reads it back; none where the site is unfit or a call refused.
pub fn echo<D: Store + Drop, M: Store<Cell = u32> + Drop, B: Bank<Cell = D::Cell> + Drop>(
    disk: D,
    marks: M,
    bank: B,
    session: u32,
    v: D::Cell,
) -> Option<D::Cell>
    ensures { Echoes v result }
{
    let mut site = Site::make(disk, marks, bank, session);
    if site.unfit().is_some() {
        return None;
    }
    site.open(1).ok()?;
    site.write(1, 0, v).ok()?;
    let mut cell = D::Cell::blank();
    site.read(1, 0, &mut cell).ok()?;
    Some(cell)
}

// Begins a flush of client k's cell i, and gives it up.
pub fn begin_and_give_up<S: Calls>(site: &mut S, k: u32, i: u32) -> Result<(), SiteFault>
    ensures { outcome (S.Calls.state site.new) result ≡ undone (S.Calls.state site.old) k i }
{
    let slip = site.begin(k, i)?;
    site.give_up(slip)
}

// Commits the slip's flush; a slip that comes back is given up.
fn settle<S: Calls>(site: &mut S, slip: Slip) -> Result<(), SiteFault> {
    site.commit(slip).map_err(|Returned { slip: back, fault }| {
        let _ = site.give_up(back);
        fault
    })
}

// Flushes client k's cell i, writes v to it, and flushes it again: each flush has a slip of its own.
pub fn flush_twice<S: Calls>(site: &mut S, k: u32, i: u32, v: S::Cell) -> Result<(), SiteFault> {
    let first = site.begin(k, i)?;
    settle(site, first)?;
    site.write(k, i, v)?;
    let second = site.begin(k, i)?;
    settle(site, second)
}
