// A line of the sheet: five fields, and the numbers in them.
ghost use Rattle.std.specs.Prelude.{◌≡◌};
ghost use Rattle.sheet.specs.Steps.{step_of};

use crate::fields::Field;
use rules::step::Step;

// The five fields of a line.
#[derive(Clone, Copy)]
pub struct Line<'a> {
    pub call: Field<'a>,
    pub client: Field<'a>,
    pub cell: Field<'a>,
    pub first: Field<'a>,
    pub second: Field<'a>,
}

// The line's numbers.
impl From<Line<'_>> for Step {
    ghost from_gives = { λ line step. step ≡ step_of line };

    fn from(line: Line<'_>) -> Step {
        Step {
            call: line.call.value(),
            client: line.client.value(),
            cell: line.cell.value(),
            first: line.first.value(),
            second: line.second.value(),
        }
    }
}
