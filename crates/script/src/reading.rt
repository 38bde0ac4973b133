// The steps that a sheet says.
ghost use Rattle.std.specs.Prelude.{◌≡◌, IfOk};
ghost use Rattle.script.specs.Scripts.{scripted, read_from};

use rules::step::Step;
use sheet::{OutputLine, Reader};
use std::alloc::{AllocError, Global};

// The steps of a sheet, and the output line of the line that was refused, if one was.
#[derive(Drop)]
pub struct Script {
    pub steps: Vec<Step>,
    pub last: Option<OutputLine>,
}

// Reads a sheet up to its end or its first refused line, and 64 lines at most.
#[tactic(auto, using(crate::proofs::Lines::at_end, crate::proofs::Lines::at_refusal, crate::proofs::Lines::goes_on, crate::proofs::Lines::all_read))]
pub fn read_script(heap: Global, sheet: &[u8]) -> Result<Script, AllocError>
    ensures { IfOk result (λ s. scripted s.steps.items s.last ≡ read_from 64 sheet.now 0) }
{
    let mut reader = Reader::new(sheet);
    let mut steps = Vec::new(heap);
    for _ in 0..64u32 {
        match reader.next_line() {
            Ok(Some(line)) => steps.push(Step::from(line))?,
            Ok(None) => break,
            Err(refusal) => return Ok(Script {
                steps,
                last: Some(OutputLine::from(refusal)),
            }),
        }
    }
    Ok(Script { steps, last: None })
}
