// What is printed for a run's answers.
ghost use Rattle.std.specs.Prelude.{◌≡◌, ◌+◌, min, ◌++◌, IfOk, OnOk};
ghost use Rattle.script.specs.Scripts.{line_bytes, answered, answer_line, ended};
ghost use Rattle.sheet.specs.Text.{most};

use rules::answer::Answer;
use sheet::OutputLine;
use std::alloc::{AllocError, Global};

// Puts a line at the end; nothing where a number has more digits than columns.
#[tactic(auto, unfolding(crate::specs::Scripts::line_bytes))]
fn push_line(out: &mut Vec<u8>, line: OutputLine) -> Result<(), AllocError>
    ensures { OnOk result (out.new.items ≡ out.old.items ++ line_bytes line) }
{
    let mut bytes = [0; 26];
    if line.put(&mut bytes).is_ok() {
        out.extend_from_slice(&bytes)?;
    }
    Ok(())
}

// The number of the step after the first i, up to the largest number.
fn step_number(i: usize) -> u32
    ensures { result ≡ min (i + 1) most }
{
    u32::try_from(i.saturating_add(1)).unwrap_or(u32::MAX)
}

// The line of an answer; its value is the cell got, after an accepted read.
fn answer_line(step: u32, answer: Answer, got: u32) -> OutputLine
    ensures { result ≡ answer_line step answer got }
{
    OutputLine {
        step,
        answer: u32::from(answer.number),
        place: answer.place,
        value: if answer.source == 0 {
            answer.value
        } else {
            got
        },
        source: u32::from(answer.source),
    }
}

// Puts the lines of a run's answers at the end.
#[tactic(auto, using(crate::proofs::Answering::one_more))]
fn push_answers(out: &mut Vec<u8>, answers: &[Answer], got: &[u32]) -> Result<(), AllocError>
    ensures { OnOk result (out.new.items ≡ out.old.items ++ answered 0 answers.now got.now) }
{
    for (i, (answer, got)) in answers.iter().zip(got).enumerate() {
        push_line(out, answer_line(step_number(i), *answer, *got))?;
    }
    Ok(())
}

// What is printed for a run's answers and cells got, and for the line at which its sheet was refused.
pub fn print(
    heap: Global,
    answers: &[Answer],
    got: &[u32],
    last: Option<OutputLine>,
) -> Result<Vec<u8>, AllocError>
    ensures { IfOk result (λ v. v.items ≡ answered 0 answers.now got.now ++ ended last) }
{
    let mut out = Vec::new(heap);
    push_answers(&mut out, answers, got)?;
    if let Some(line) = last {
        push_line(&mut out, line)?;
    }
    Ok(out)
}
