// The reader of a sheet, which stands at the start of a line between calls.
ghost use Rattle.std.specs.Prelude.{◌≡◌, OnOk, if◌then◌else◌};
ghost use Rattle.sheet.specs.Answers.{line_meant};
ghost use Rattle.sheet.specs.Laws.{HandsOutItsOwn};
ghost use Rattle.sheet.specs.Sheet.{line_of, place_after};

use crate::columns::Columns;
use crate::fields::{Cause, Place, Refusal, read_field};
use crate::lines::Line;
use crate::text::ends_at_32;

// The columns of a line's fields.
const CALL: Columns = Columns { first: 1, width: 2 };

const CLIENT: Columns = Columns { first: 3, width: 2 };

const CELL: Columns = Columns { first: 5, width: 5 };

const FIRST: Columns = Columns {
    first: 10,
    width: 11,
};

const SECOND: Columns = Columns {
    first: 21,
    width: 11,
};

// The reader's place while a line is read. Its end puts the place back to the
// start of the line, unless the line was accepted. (A flag: with an `Option` of the start, the accepted line's end
// would say what it is not.)
struct Guard<'a> {
    place: &'a mut usize,
    start: usize,
    accepted: bool,
}

impl Drop for Guard<'_> {
    fn drop(self)
        ensures { self.exit.0.now ≡ (if self.entry.accepted then self.entry.place.now else self.entry.start) }
    {
        if !self.accepted {
            *self.place = self.start;
        }
        let Guard {
            place: _,
            start: _,
            accepted: _,
        } = self;
    }
}

// A sheet and the place of the next line in it.
// It is no `Iterator`, which would go on forever at a refused line: the place is at its start again.
#[derive(Drop)]
pub struct Reader<'a> {
    sheet: &'a [u8],
    place: usize,
}

impl<'a> Reader<'a> {
    // A reader at the start of the sheet.
    pub fn new(sheet: &'a [u8]) -> Reader<'a>
        ensures sheet { result.sheet.now ≡ sheet.now }
        ensures place { result.place ≡ 0 }
    {
        Reader { sheet, place: 0 }
    }

    // The next line; none at the sheet's end; or a refusal, and then the place is as it was.
    pub fn next_line(&mut self) -> Result<Option<Line<'a>>, Refusal>
        ensures line { line_meant result ≡ line_of self.old.sheet.now self.old.place }
        ensures place { self.new.place ≡ place_after (line_meant result) self.old.place }
        ensures sheet { self.new.sheet.now ≡ self.old.sheet.now }
    {
        let start = self.place;
        let mut guard = Guard {
            place: &mut self.place,
            start,
            accepted: false,
        };
        let line = read_line(self.sheet, guard.place)?;
        guard.accepted = true;
        Ok(line)
    }
}

// The line at the place, which moves on field by field: past the line where it is accepted.
fn read_line<'a>(sheet: &'a [u8], place: &mut usize) -> Result<Option<Line<'a>>, Refusal>
    ensures line { line_meant result ≡ line_of sheet.now place.old }
    ensures moved { OnOk result (place.new ≡ place_after (line_meant result) place.old) }
{
    if *place >= sheet.len() {
        return Ok(None);
    }
    let line = *place / 32 + 1;
    let rest = &sheet[*place..];
    if !ends_at_32(rest) {
        let cause = Cause::LineEnd;
        let place = Place { line, column: 1 };
        return Err(Refusal { cause, place });
    }
    let mut field = |columns: Columns| {
        let field = read_field(rest, line, columns)?;
        *place += usize::from(columns.width);
        Ok(field)
    };
    let fields = Line {
        call: field(CALL)?,
        client: field(CLIENT)?,
        cell: field(CELL)?,
        first: field(FIRST)?,
        second: field(SECOND)?,
    };
    *place += 1;
    Ok(Some(fields))
}

// Digits that are handed out are the sheet's own bytes at their line and column, whatever the sheet.
#[tactic(auto, using(crate::proofs::Own::hands_out_its_own))]
pub fn hands_out_its_own()
    ensures { HandsOutItsOwn }
{}
