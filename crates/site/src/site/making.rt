// The making of a site.
ghost use Rattle.std.specs.Prelude.{◌≡◌};
ghost use Rattle.std.specs.Result.{result_err};
ghost use Rattle.store.specs.Stores.{stored};
ghost use Rattle.site.specs.Means.{rests, site_rests, site_state};
ghost use Rattle.rules.specs.Making.{looked, look_from, surveyed, making};

use super::*;
use records::fault::Unfit;

// Questions 5 and 6, mark by mark: the first no.
#[tactic(auto, using(crate::proofs::Makings::look_none))]
fn look<M: Store<Cell = u32>>(marks: &mut M, m: usize, session: u32) -> Result<(), Unfit>
    ensures does { looked (result_err result) (stored (M.Store.cells marks.new) (M.Store.life marks.new)) ≡ look_from m 0 session (stored (M.Store.cells marks.old) (M.Store.life marks.old)) }
    ensures kept { M.Store.rest marks.new ≡ M.Store.rest marks.old }
{
    for i in 0..m {
        let mark = marks.read(i).map_err(|_| Unfit::MarkUnread)?;
        if mark > session {
            return Err(Unfit::MarkAbove);
        }
    }
    Ok(())
}

// Questions 1 to 6: the first no.
#[tactic(auto, using(crate::proofs::Makings::no_size, crate::proofs::Makings::no_marks, crate::proofs::Makings::no_clients, crate::proofs::Makings::no_long, crate::proofs::Makings::then_look))]
fn survey<D: Store, M: Store<Cell = u32>, B: Bank<Cell = D::Cell>>(
    disk: &D,
    marks: &mut M,
    bank: &B,
    session: u32,
) -> Result<(), Unfit>
    ensures does { looked (result_err result) (stored (M.Store.cells marks.new) (M.Store.life marks.new)) ≡ surveyed (stored (D.Store.cells disk.now) (D.Store.life disk.now)) (stored (M.Store.cells marks.old) (M.Store.life marks.old)) (B.Bank.stores bank.now) session }
    ensures kept { M.Store.rest marks.new ≡ M.Store.rest marks.old }
{
    let m = disk.count();
    if m == 0 || m > 1024 {
        return Err(Unfit::DiskSize);
    }
    if M::count(marks) != m {
        return Err(Unfit::MarksSize);
    }
    let clients = bank.clients();
    if clients == 0 || clients > 8 {
        return Err(Unfit::ClientCount);
    }
    if !bank.all_long(m + 1) {
        return Err(Unfit::LocalSize);
    }
    look(marks, m, session)
}

impl<D: Store, M: Store<Cell = u32>, B: Bank<Cell = D::Cell>> Site<D, M, B> {
    // A site of these stores; it may be unfit.
    pub fn make(disk: D, mut marks: M, bank: B, session: u32) -> Self
        ensures does { site_state D.Store M.Store B.Bank result ≡ making (stored (D.Store.cells disk) (D.Store.life disk)) (stored (M.Store.cells marks) (M.Store.life marks)) (B.Bank.stores bank) session }
        ensures kept { site_rests D.Store M.Store B.Bank result ≡ rests (D.Store.rest disk) (M.Store.rest marks) (B.Bank.rest bank) }
    {
        let table = match survey(&disk, &mut marks, &bank, session) {
            Ok(()) => Table::new(None, disk.count() as u32, bank.clients(), session),
            Err(unfit) => Table::new(Some(unfit), 0, 0, session),
        };
        Site {
            disk,
            marks,
            bank,
            table,
        }
    }

    // The first no at the making, if there was one; without one the site is fit.
    pub fn unfit(&self) -> Option<Unfit>
        ensures { result ≡ (site_state D.Store M.Store B.Bank self.now).table.unfit }
    {
        self.table.unfit()
    }
}
