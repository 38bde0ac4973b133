// The calls of a site, as a caller sees them.
ghost use Rattle.std.specs.Prelude.{◌≡◌};
ghost use Rattle.site.specs.Means.{Rests, site_rests, site_state};
ghost use Rattle.site.specs.Promises.{reading, read_shown, open_does, read_does, write_does, begin_does, commit_does, give_up_does, close_does, invalidate_does, restart_client_does, restart_server_does};
ghost use Rattle.site.specs.Slips.{flush_given, fault_of, settled};
ghost use Rattle.site.specs.Steps.{rows, run_does};
ghost use Rattle.rules.specs.Site.{State, outcome};
ghost use Rattle.rules.specs.Calls.{sweeping};
ghost use Rattle.rules.specs.Replies.{Open, Read, Write, Begin, Commit, GiveUp, Close, Invalidate, RestartClient, RestartServer, open_reply, begin_reply, plain_reply, swept_reply};
ghost use Rattle.rules.specs.Runs.{running, run_answer};
ghost use Rattle.rules.specs.Carry.{Continues, ContinuesRun};

use crate::site::Site;
use crate::slip::{Returned, Slip};
use bank::Bank;
use records::fault::SiteFault;
use rules::answer::{Answer, Source, Stopped};
use rules::step::Step;
use store::{Cell, Store};

// The calls of a site. Any numbers may be given; a call that is refused says why. Each call promises what it
// leaves and answers (`call`), and consistency (`upheld`): whatever new fit site and list of calls and runs led
// to the site as it was found, every accepted read among them and of this call gave the last write, the disk
// lags only at unsent cells, and every copy that counts as fresh is the disk's cell.
pub trait Calls {
    // What is read and written whole.
    type Cell: Cell;

    // what the site means
    ghost state: { Self → State Self.Cell };

    // What the stores stand on besides their cells and lives, as the lender's memory around them; no call
    // changes it. (Each call promises that, since an invariant speaks of one moment only.)
    ghost Rest: { Type 0 };

    ghost rest: { Self → Rest };

    // Opens a session for client k, and answers its number.
    fn open(&mut self, k: u32) -> Result<u32, SiteFault>
        ensures call { outcome (state self.new) result ≡ open_does (state self.old) k }
        ensures upheld { Continues Self.Cell.Cell.empty (state self.old) (Open k) (state self.new) (open_reply result) }
        ensures kept { rest self.new ≡ rest self.old };

    // Reads cell i for client k into `into`, and answers its source. A refused read leaves `into` as it was.
    fn read(&mut self, k: u32, i: u32, into: &mut Self::Cell) -> Result<Source, SiteFault>
        ensures call { reading (state self.new) result into.new ≡ read_does (state self.old) k i into.old }
        ensures upheld { Continues Self.Cell.Cell.empty (state self.old) (Read k i) (state self.new) (read_shown i into.new result) }
        ensures kept { rest self.new ≡ rest self.old };

    // Writes v to cell i of client k's copies.
    fn write(&mut self, k: u32, i: u32, v: Self::Cell) -> Result<(), SiteFault>
        ensures call { outcome (state self.new) result ≡ write_does (state self.old) k i v }
        ensures upheld { Continues Self.Cell.Cell.empty (state self.old) (Write k i v) (state self.new) (plain_reply i result) }
        ensures kept { rest self.new ≡ rest self.old };

    // Begins a flush of client k's dirty cell i, which goes into the journal, and gives the slip for it.
    fn begin(&mut self, k: u32, i: u32) -> Result<Slip, SiteFault>
        ensures call { outcome (state self.new) result ≡ begin_does (state self.old) k i }
        ensures upheld { Continues Self.Cell.Cell.empty (state self.old) (Begin k i) (state self.new) (begin_reply i (flush_given result)) }
        ensures kept { rest self.new ≡ rest self.old };

    // Commits the flush that the slip names: the journal's cell goes to the disk. A refused commit gives the
    // slip back.
    fn commit(&mut self, slip: Slip) -> Result<(), Returned>
        ensures call { settled (state self.new) result ≡ commit_does Self.Cell.Cell.empty (state self.old) slip }
        ensures upheld { Continues Self.Cell.Cell.empty (state self.old) (Commit slip.flush) (state self.new) (plain_reply slip.flush.cell (fault_of result)) }
        ensures kept { rest self.new ≡ rest self.old };

    // Gives up the flush that the slip names, whose cell becomes dirty again; the slip is spent whatever the
    // answer.
    fn give_up(&mut self, slip: Slip) -> Result<(), SiteFault>
        ensures call { outcome (state self.new) result ≡ give_up_does (state self.old) slip.flush }
        ensures upheld { Continues Self.Cell.Cell.empty (state self.old) (GiveUp slip.flush) (state self.new) (plain_reply slip.flush.cell result) }
        ensures kept { rest self.new ≡ rest self.old };

    // Closes client k's session.
    fn close(&mut self, k: u32) -> Result<(), SiteFault>
        ensures call { outcome (state self.new) result ≡ close_does (state self.old) k }
        ensures upheld { Continues Self.Cell.Cell.empty (state self.old) (Close k) (state self.new) (plain_reply 0 result) }
        ensures kept { rest self.new ≡ rest self.old };

    // Holds client k's copies against the server's marks: those that are behind become absent. Answers how many.
    fn invalidate(&mut self, k: u32) -> Result<u32, Stopped>
        ensures call { sweeping (state self.new) result ≡ invalidate_does (state self.old) k }
        ensures upheld { Continues Self.Cell.Cell.empty (state self.old) (Invalidate k) (state self.new) (swept_reply result) }
        ensures kept { rest self.new ≡ rest self.old };

    // Restarts client k, whose local store is renewed with n.
    fn restart_client(&mut self, k: u32, n: u32) -> Result<(), SiteFault>
        ensures call { outcome (state self.new) result ≡ restart_client_does (state self.old) k n }
        ensures upheld { Continues Self.Cell.Cell.empty (state self.old) (RestartClient k n) (state self.new) (plain_reply 0 result) }
        ensures kept { rest self.new ≡ rest self.old };

    // Restarts the server: the disk is renewed with n, and the marks with m.
    fn restart_server(&mut self, n: u32, m: u32) -> Result<(), SiteFault>
        ensures call { outcome (state self.new) result ≡ restart_server_does (state self.old) n m }
        ensures upheld { Continues Self.Cell.Cell.empty (state self.old) (RestartServer n m) (state self.new) (plain_reply 0 result) }
        ensures kept { rest self.new ≡ rest self.old };

    // Makes the steps' calls in order: each takes its cell from `given` if it writes, and leaves its answer and,
    // at an accepted read, the cell got. A begun flush's slip is noted, and taken up by a later commit or give
    // up. A refused step ends only itself; rows that are not equally long are refused and left as they are.
    // (The rows are lent one by one: of a struct that lends all four, clauses would say `rows.exit.1.1.0.now`.)
    fn run(
        &mut self,
        steps: &[Step],
        given: &[Self::Cell],
        answers: &mut [Answer],
        got: &mut [Self::Cell],
    ) -> Result<(), SiteFault>
        ensures answer { result ≡ run_answer (rows steps.now given.now answers.old got.old) }
        ensures call { running (state self.new) answers.new got.new ≡ run_does Self.Cell.Cell.empty (state self.old) (rows steps.now given.now answers.old got.old) }
        ensures upheld { ContinuesRun Self.Cell.Cell.empty (state self.old) (rows steps.now given.now answers.old got.old) (state self.new) answers.new got.new }
        ensures kept { rest self.new ≡ rest self.old };
}

impl<D: Store, M: Store<Cell = u32>, B: Bank<Cell = D::Cell>> Calls for Site<D, M, B> {
    type Cell = D::Cell;

    ghost state = { site_state D.Store M.Store B.Bank };

    ghost Rest = { Rests D.Store.Rest M.Store.Rest B.Bank.Rest };

    ghost rest = { site_rests D.Store M.Store B.Bank };

    #[tactic(auto, using(rules::proofs::Carried::open_carried), unfolding(crate::specs::Promises::open_does))]
    fn open(&mut self, k: u32) -> Result<u32, SiteFault> {
        self.do_open(k)
    }

    #[tactic(auto, unfolding(crate::specs::Promises::read_does))]
    fn read(&mut self, k: u32, i: u32, into: &mut D::Cell) -> Result<Source, SiteFault> {
        let (v, source) = self.do_read(k, i)?;
        *into = v;
        Ok(source)
    }

    #[tactic(auto, using(rules::proofs::Carried::write_carried), unfolding(crate::specs::Promises::write_does))]
    #[inline]
    fn write(&mut self, k: u32, i: u32, v: D::Cell) -> Result<(), SiteFault> {
        self.do_write(k, i, v)
    }

    #[tactic(auto, using(crate::proofs::Promised::begin_upheld), unfolding(crate::specs::Promises::begin_does))]
    fn begin(&mut self, k: u32, i: u32) -> Result<Slip, SiteFault> {
        self.do_begin(k, i)
    }

    #[tactic(auto, using(crate::proofs::Promised::commit_upheld), unfolding(crate::specs::Promises::commit_does))]
    fn commit(&mut self, slip: Slip) -> Result<(), Returned> {
        self.do_commit(slip)
    }

    #[tactic(auto, using(rules::proofs::Carried::give_up_carried), unfolding(crate::specs::Promises::give_up_does))]
    fn give_up(&mut self, slip: Slip) -> Result<(), SiteFault> {
        self.do_give_up(slip)
    }

    #[tactic(auto, using(rules::proofs::Carried::close_carried), unfolding(crate::specs::Promises::close_does))]
    fn close(&mut self, k: u32) -> Result<(), SiteFault> {
        self.do_close(k)
    }

    #[tactic(auto, using(rules::proofs::Carried::invalidate_carried), unfolding(crate::specs::Promises::invalidate_does))]
    fn invalidate(&mut self, k: u32) -> Result<u32, Stopped> {
        self.do_invalidate(k)
    }

    #[tactic(auto, using(rules::proofs::Carried::restart_client_carried), unfolding(crate::specs::Promises::restart_client_does))]
    fn restart_client(&mut self, k: u32, n: u32) -> Result<(), SiteFault> {
        self.do_restart_client(k, n)
    }

    #[tactic(auto, using(rules::proofs::Carried::restart_server_carried), unfolding(crate::specs::Promises::restart_server_does))]
    fn restart_server(&mut self, n: u32, m: u32) -> Result<(), SiteFault> {
        self.do_restart_server(n, m)
    }

    #[tactic(auto, using(rules::proofs::Theorem::continues_run), unfolding(crate::specs::Steps::run_does))]
    fn run(
        &mut self,
        steps: &[Step],
        given: &[D::Cell],
        answers: &mut [Answer],
        got: &mut [D::Cell],
    ) -> Result<(), SiteFault> {
        self.do_run(steps, given, answers, got)
    }
}
