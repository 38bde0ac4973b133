// A sheet run on a site of its own, from the sheet's bytes to the printed bytes.
#![tactic(auto)]

ghost use Rattle.std.specs.Prelude.{◌≡◌, IfOk};
ghost use Rattle.script.specs.Printed.{printed, site};
ghost use Rattle.script.specs.Scripts.{given_by};
ghost use Rattle.rules.specs.Replies.{called};
ghost use Rattle.rules.specs.Runs.{ran};
ghost use Rattle.store.specs.Stores.{stored};
ghost use Rattle.play.specs.Plays.{run_on, left_by, answers_to};
ghost use Rattle.site.specs.Steps.{rows};

use bank::{Bank, End};
use rules::answer::Answer;
use rules::step::Step;
use script::{print, read_script};
use site::{Calls, Site};
use std::alloc::{AllocError, Global};
use std::marker::PhantomData;
use store::{Fuse, Row, Store};

// The cells that writes take: each step's first number.
fn given(heap: Global, steps: &[Step]) -> Result<Vec<u32>, AllocError>
    ensures { IfOk result (λ v. v.items ≡ given_by steps.now) }
{
    steps.iter().map(|step| step.first).collect(heap)
}

// A row under a fuse of 1,000.
fn fused(cells: &mut [u32]) -> Fuse<Row<'_, u32>>
    ensures cells { result.below.lent.now ≡ cells.old }
    ensures left { result.left ≡ 1000 }
{
    Fuse::new(Row::new(cells), 1000)
}

// Runs the steps on a new site of these stores, with starting session 0.
// (The four rows stay apart, as a site's run takes them: a struct of them would be taken apart at once.)
#[tactic(auto, unfolding(crate::specs::Plays::run_on, site::specs::Steps::run_does))]
fn run_on<D: Store + Drop, M: Store<Cell = u32> + Drop, B: Bank<Cell = D::Cell> + Drop>(
    disk: D,
    marks: M,
    bank: B,
    steps: &[Step],
    given: &[D::Cell],
    answers: &mut [Answer],
    got: &mut [D::Cell],
)
    ensures answers { answers.new ≡ (run_on D.Cell.Cell.empty (stored (D.Store.cells disk) (D.Store.life disk)) (stored (M.Store.cells marks) (M.Store.life marks)) (B.Bank.stores bank) (rows steps.now given.now answers.old got.old)).answers }
    ensures got { got.new ≡ (run_on D.Cell.Cell.empty (stored (D.Store.cells disk) (D.Store.life disk)) (stored (M.Store.cells marks) (M.Store.life marks)) (B.Bank.stores bank) (rows steps.now given.now answers.old got.old)).got }
{
    let mut site = Site::make(disk, marks, bank, 0);
    let _ = site.run(steps, given, answers, got);
}

// Runs the steps on the sheet's own site: 8 number cells, 3 clients, all cells and marks 0, and every store a row
// under a fuse of 1,000.
#[tactic(auto, unfolding(crate::specs::Plays::run_on, script::specs::Printed::site))]
fn run_steps(steps: &[Step], given: &[u32], answers: &mut [Answer], got: &mut [u32])
    ensures answers { answers.new ≡ (ran (called 0) site (rows steps.now given.now answers.old got.old)).answers }
    ensures got { got.new ≡ (ran (called 0) site (rows steps.now given.now answers.old got.old)).got }
{
    let mut disk = [0; 8];
    let mut marks = [0; 8];
    let mut first = [0; 9];
    let mut second = [0; 9];
    let mut third = [0; 9];
    let end = End { cell: PhantomData };
    let bank = (
        fused(&mut first),
        (fused(&mut second), (fused(&mut third), end)),
    );
    run_on(
        fused(&mut disk),
        fused(&mut marks),
        bank,
        steps,
        given,
        answers,
        got,
    );
}

// What a run left in its rows.
#[derive(Drop)]
struct Left {
    answers: Vec<Answer>,
    got: Vec<u32>,
}

// Runs the steps on the sheet's own site, with rows for them.
#[tactic(auto, unfolding(crate::specs::Plays::answers_to))]
fn answer(heap: Global, steps: &[Step]) -> Result<Left, AllocError>
    ensures { IfOk result (λ l. left_by l.answers.items l.got.items ≡ answers_to steps.now) }
{
    let given = given(heap, steps)?;
    let mut answers = vec![in heap; Answer::default(); steps.len()]?;
    let mut got = vec![in heap; 0; steps.len()]?;
    run_steps(steps, &given, &mut answers, &mut got);
    Ok(Left { answers, got })
}

// What is printed for a sheet: at most 64 lines are read, each is a step, and the steps are run on a site of their
// own. A refused line ends the output. For want of memory nothing is printed.
#[tactic(auto, unfolding(crate::specs::Plays::answers_to, script::specs::Printed::printed))]
pub fn play(heap: Global, sheet: &[u8]) -> Result<Vec<u8>, AllocError>
    ensures { IfOk result (λ v. v.items ≡ printed sheet.now) }
{
    let script = read_script(heap, sheet)?;
    let left = answer(heap, &script.steps)?;
    print(heap, &left.answers, &left.got, script.last)
}
