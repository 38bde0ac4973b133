// A run: steps and cells given are read, answers and cells got are filled, one by one. Only here slips are
// noted: a note is a slip that is put aside in its client's record, to be taken up by a later step.
ghost use Rattle.std.specs.Prelude.{◌≡◌, Some};
ghost use Rattle.rules.specs.Site.{outcome};
ghost use Rattle.rules.specs.Calls.{begin_step, commit_taken, with_note_of};
ghost use Rattle.rules.specs.Replies.{CommitStep, GiveUpStep, out, called};
ghost use Rattle.rules.specs.Runs.{call_of, running, ran, run_answer};
ghost use Rattle.site.specs.Means.{site_rests, site_state};
ghost use Rattle.site.specs.Steps.{as_reply, stepped, step_left, rows};

use super::*;
use crate::reply::{Done, no_reply, noted_reply, open_reply, plain_reply, read_reply, swept_reply};
use crate::slip::{Returned, Slip};
use records::fault::SiteFault;
use records::records::Flush;
use rules::answer::Answer;
use rules::step::Step;
use store::Cell;

impl<D: Store, M: Store<Cell = u32>, B: Bank<Cell = D::Cell>> Site<D, M, B> {
    // Writes the slip into client k's record, over any older one.
    fn note(&mut self, k: u32, slip: Slip)
        ensures does { site_state D.Store M.Store B.Bank self.new ≡ with_note_of (site_state D.Store M.Store B.Bank self.old) k (Some slip.flush) }
        ensures kept { site_rests D.Store M.Store B.Bank self.new ≡ site_rests D.Store M.Store B.Bank self.old }
    {
        self.table.note(k, Some(slip.spend()));
    }

    // Begins, and notes the slip.
    #[tactic(auto, using(crate::proofs::Stepping::begin_noted))]
    fn begin_step(&mut self, k: u32, i: u32) -> Result<Flush, SiteFault>
        ensures does { outcome (site_state D.Store M.Store B.Bank self.new) result ≡ begin_step (site_state D.Store M.Store B.Bank self.old) k i }
        ensures kept { site_rests D.Store M.Store B.Bank self.new ≡ site_rests D.Store M.Store B.Bank self.old }
    {
        let slip = self.do_begin(k, i)?;
        let flush = slip.flush();
        self.note(k, slip);
        Ok(flush)
    }

    // Commits; a slip that comes back is noted again.
    fn commit_taken(&mut self, k: u32, slip: Slip) -> Result<(), SiteFault>
        ensures does { outcome (site_state D.Store M.Store B.Bank self.new) result ≡ commit_taken D.Cell.Cell.empty (site_state D.Store M.Store B.Bank self.old) k slip.flush }
        ensures kept { site_rests D.Store M.Store B.Bank self.new ≡ site_rests D.Store M.Store B.Bank self.old }
    {
        // no `map_err`: the clause speaks of the site after the arm, and a closure would have to say what it makes of it
        match self.do_commit(slip) {
            Ok(()) => Ok(()),
            Err(Returned { slip, fault }) => {
                self.note(k, slip);
                Err(fault)
            }
        }
    }

    // Takes client k's slip up, and commits it. (Apart from the one below: a function that took what differs as
    // closures would have a `requires`.)
    fn commit_step(&mut self, k: u32) -> Done<D::Cell>
        ensures does { out (site_state D.Store M.Store B.Bank self.new) (as_reply result) ≡ called D.Cell.Cell.empty (site_state D.Store M.Store B.Bank self.old) (CommitStep k) }
        ensures kept { site_rests D.Store M.Store B.Bank self.new ≡ site_rests D.Store M.Store B.Bank self.old }
    {
        match self.table.taking_to_commit(k) {
            Ok(flush) => {
                self.table.note(k, None);
                plain_reply(flush.cell, self.commit_taken(k, Slip::new(flush)))
            }
            Err(fault) => no_reply(fault),
        }
    }

    // Takes client k's slip up, and gives it up.
    fn give_up_step(&mut self, k: u32) -> Done<D::Cell>
        ensures does { out (site_state D.Store M.Store B.Bank self.new) (as_reply result) ≡ called D.Cell.Cell.empty (site_state D.Store M.Store B.Bank self.old) (GiveUpStep k) }
        ensures kept { site_rests D.Store M.Store B.Bank self.new ≡ site_rests D.Store M.Store B.Bank self.old }
    {
        match self.table.taking_to_give_up(k) {
            Ok(flush) => {
                self.table.note(k, None);
                plain_reply(flush.cell, self.do_give_up(Slip::new(flush)))
            }
            Err(fault) => no_reply(fault),
        }
    }

    // The call that a step makes, by its number.
    fn do_step(&mut self, step: Step, given: D::Cell) -> Done<D::Cell>
        ensures does { out (site_state D.Store M.Store B.Bank self.new) (as_reply result) ≡ called D.Cell.Cell.empty (site_state D.Store M.Store B.Bank self.old) (call_of step given) }
        ensures kept { site_rests D.Store M.Store B.Bank self.new ≡ site_rests D.Store M.Store B.Bank self.old }
    {
        let k = step.client;
        let i = step.cell;
        // a call's number goes to its work in this one match: an enum of the ten would be matched once more
        match step.call {
            1 => open_reply(self.do_open(k)),
            2 => read_reply(i, self.do_read(k, i)),
            3 => plain_reply(i, self.do_write(k, i, given)),
            4 => noted_reply(i, self.begin_step(k, i)),
            5 => self.commit_step(k),
            6 => self.give_up_step(k),
            7 => plain_reply(0, self.do_close(k)),
            8 => swept_reply(self.do_invalidate(k)),
            9 => plain_reply(0, self.do_restart_client(k, step.first)),
            10 => plain_reply(0, self.do_restart_server(step.first, step.second)),
            _ => no_reply(SiteFault::NoCall),
        }
    }

    // One step: its answer, and the cell got at an accepted read only.
    fn step(&mut self, step: Step, given: D::Cell, answer: &mut Answer, got: &mut D::Cell)
        ensures does { stepped (site_state D.Store M.Store B.Bank self.new) answer.new got.new ≡ step_left (called D.Cell.Cell.empty (site_state D.Store M.Store B.Bank self.old) (call_of step given)) got.old }
        ensures kept { site_rests D.Store M.Store B.Bank self.new ≡ site_rests D.Store M.Store B.Bank self.old }
    {
        let done = self.do_step(step, given);
        *answer = done.answer;
        if let Some(v) = done.got {
            *got = v;
        }
    }

    // All steps in order; a refused step ends only itself. Rows that are not equally long are left as they are.
    pub(crate) fn do_run(
        &mut self,
        steps: &[Step],
        given: &[D::Cell],
        answers: &mut [Answer],
        got: &mut [D::Cell],
    ) -> Result<(), SiteFault>
        ensures answer { result ≡ run_answer (rows steps.now given.now answers.old got.old) }
        ensures left { running (site_state D.Store M.Store B.Bank self.new) answers.new got.new ≡ ran (called D.Cell.Cell.empty) (site_state D.Store M.Store B.Bank self.old) (rows steps.now given.now answers.old got.old) }
        ensures kept { site_rests D.Store M.Store B.Bank self.new ≡ site_rests D.Store M.Store B.Bank self.old }
    {
        let n = steps.len();
        if given.len() != n || answers.len() != n || got.len() != n {
            return Err(SiteFault::RowsUnequal);
        }
        // by index: with the rows zipped, what is written through `iter_mut` got no proof
        for i in 0..n {
            self.step(steps[i], given[i], &mut answers[i], &mut got[i]);
        }
        Ok(())
    }
}
