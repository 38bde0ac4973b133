// Two sites with the same steps.
ghost use Rattle.std.specs.Prelude.{◌≡◌};
ghost use Rattle.rules.specs.Runs.{running, run_answer};
ghost use Rattle.rules.specs.Carry.{RunsAlike};
ghost use Rattle.site.specs.Steps.{rows, run_does};

use crate::calls::Calls;
use records::fault::SiteFault;
use rules::answer::Answer;
use rules::step::Step;

// Runs the same steps with the same cells given on two sites, of whatever makes of stores with one kind of
// cell. Sites that began with equal client counts, sessions, cells and lives and were handled alike answer
// alike: in number, place, value, source, cell got and fault, and in the slips that they have noted. (Rows are lent
// one by one, as a site's own run takes them.)
#[tactic(auto, using(rules::proofs::Alike::runs_alike), unfolding(crate::specs::Steps::run_does))]
pub fn run_both<S: Calls, T: Calls<Cell = S::Cell>>(
    one: &mut S,
    other: &mut T,
    steps: &[Step],
    given: &[S::Cell],
    answers: &mut [Answer],
    got: &mut [S::Cell],
    answers2: &mut [Answer],
    got2: &mut [S::Cell],
) -> (Result<(), SiteFault>, Result<(), SiteFault>)
    ensures answer { result.0 ≡ run_answer (rows steps.now given.now answers.old got.old) }
    ensures answer2 { result.1 ≡ run_answer (rows steps.now given.now answers2.old got2.old) }
    ensures call { running (S.Calls.state one.new) answers.new got.new ≡ run_does S.Cell.Cell.empty (S.Calls.state one.old) (rows steps.now given.now answers.old got.old) }
    ensures call2 { running (T.Calls.state other.new) answers2.new got2.new ≡ run_does S.Cell.Cell.empty (T.Calls.state other.old) (rows steps.now given.now answers2.old got2.old) }
    ensures kept { S.Calls.rest one.new ≡ S.Calls.rest one.old }
    ensures kept2 { T.Calls.rest other.new ≡ T.Calls.rest other.old }
    ensures alike { RunsAlike S.Cell.Cell.empty (S.Calls.state one.old) (T.Calls.state other.old) (rows steps.now given.now answers.old got.old) (rows steps.now given.now answers2.old got2.old) (running (S.Calls.state one.new) answers.new got.new) (running (T.Calls.state other.new) answers2.new got2.new) }
{
    let first = one.run(steps, given, answers, got);
    let second = other.run(steps, given, answers2, got2);
    (first, second)
}
