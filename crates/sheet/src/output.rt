// Lines of output.
ghost use Rattle.std.specs.Prelude.{◌≡◌, ◌&&◌, ◌++◌, length, drop, is_ok, OnOk, if◌then◌else◌, nat_le};
ghost use Rattle.sheet.specs.Output.{output_fits, output_bytes, refusal_output};

use crate::columns::{Columns, NoRoom};
use crate::fields::Refusal;

// One line of output: step 4, answer 3, place 5, value 11 and source 2 columns, and a line feed. (Its fields are the
// numbers as they are printed.)
#[derive(Clone, Copy)]
pub struct OutputLine {
    pub step: u32,
    pub answer: u32,
    pub place: u32,
    pub value: u32,
    pub source: u32,
}

// The columns of its numbers.
const STEP: Columns = Columns { first: 1, width: 4 };

const ANSWER: Columns = Columns { first: 5, width: 3 };

const PLACE: Columns = Columns { first: 8, width: 5 };

const VALUE: Columns = Columns {
    first: 13,
    width: 11,
};

const SOURCE: Columns = Columns {
    first: 24,
    width: 2,
};

impl OutputLine {
    // Puts the line into the first 26 bytes; or, where these are not there or a
    // number has more digits than columns, leaves all bytes as they are.
    pub fn put(&self, out: &mut [u8]) -> Result<(), NoRoom>
        ensures fits { is_ok result ≡ nat_le 26 (length out.old) && output_fits self.now }
        ensures bytes { out.new ≡ (if is_ok result then output_bytes self.now ++ drop 26 out.old else out.old) }
    {
        if out.len() < 26 {
            return Err(NoRoom);
        }
        let mut line = [0; 26];
        self.write(&mut line)?;
        out[0..26].copy_from_slice(&line);
        Ok(())
    }

    // Writes the line's 26 bytes; or some of them, where a number has more digits than columns.
    fn write(&self, line: &mut [u8; 26]) -> Result<(), NoRoom>
        ensures fits { is_ok result ≡ output_fits self.now }
        ensures bytes { OnOk result (line.new ≡ output_bytes self.now) }
    {
        // a loop over columns and numbers would be no shorter: they would stand in a table of five lines
        STEP.put(line, self.step)?;
        ANSWER.put(line, self.answer)?;
        PLACE.put(line, self.place)?;
        VALUE.put(line, self.value)?;
        SOURCE.put(line, self.source)?;
        line[25] = b'\n';
        Ok(())
    }
}

// The line that ends the output where the sheet is refused.
impl From<Refusal> for OutputLine {
    ghost from_gives = { λ refusal line. line ≡ refusal_output refusal };

    fn from(refusal: Refusal) -> OutputLine {
        OutputLine {
            step: u32::try_from(refusal.place.line).unwrap_or(u32::MAX),
            answer: u32::from(refusal.cause),
            place: refusal.place.column,
            value: 0,
            source: 0,
        }
    }
}
