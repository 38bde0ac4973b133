// One field of a line: blank, or digits that are part of the sheet.
ghost use Rattle.std.specs.Prelude.{◌≡◌};
ghost use Rattle.sheet.specs.Answers.{digits_meant, field_meant, refusal_number};
ghost use Rattle.sheet.specs.Sheet.{in_columns};
ghost use Rattle.sheet.specs.Steps.{field_number};
ghost use Rattle.sheet.specs.Text.{digits_in};

use crate::columns::Columns;
use crate::text::{after_blanks, all_digits, number};

// A line and a column of the sheet, each counted from 1.
#[derive(Clone, Copy, Debug, PartialEq)]
pub struct Place {
    pub line: usize,
    pub column: u32,
}

// A field as it stands in the sheet. A blank field has the place of its first
// column, and digits have that of the first digit. (An enum of these two, by the rules.)
#[derive(Clone, Copy)]
pub enum Field<'a> {
    Blank(Place),
    Digits(Place, &'a [u8]),
}

// Why a line is refused.
#[derive(Clone, Copy, Debug, PartialEq)]
pub enum Cause {
    // the line's first line feed is not its byte 32
    LineEnd = 31,
    // the field is not blanks and then digits
    NotDigits = 32,
    // the field is above 4,294,967,295
    TooLarge = 34,
}

// A refused line: why, and at which field's first column.
#[derive(Clone, Copy, Debug, PartialEq)]
pub struct Refusal {
    pub cause: Cause,
    pub place: Place,
}

// The refusal's number.
impl From<Cause> for u32 {
    ghost from_gives = { λ cause n. n ≡ refusal_number cause };

    fn from(cause: Cause) -> u32 {
        cause as u32
    }
}

impl Field<'_> {
    // The number in the field; a blank field reads as 0.
    pub fn value(&self) -> u32
        ensures { result ≡ field_number self.now }
    {
        match self {
            Field::Blank(_) => 0,
            Field::Digits(_, digits) => number(digits).unwrap_or(0),
        }
    }
}

// The digits after a field's blanks; or why the field is refused.
fn digits_in(field: &[u8]) -> Result<&[u8], Cause>
    ensures { digits_meant result ≡ digits_in field.now }
{
    let digits = after_blanks(field);
    if !all_digits(digits) {
        return Err(Cause::NotDigits);
    }
    number(digits).ok_or(Cause::TooLarge)?;
    Ok(digits)
}

// The field in these columns of a line that begins with these bytes.
#[tactic(auto, unfolding(crate::specs::Sheet::in_columns))]
pub(crate) fn read_field<'a>(
    bytes: &'a [u8],
    line: usize,
    columns: Columns,
) -> Result<Field<'a>, Refusal>
    ensures { field_meant result ≡ in_columns line bytes.now columns.first columns.width }
{
    let field = columns.cut(bytes);
    let column = u32::from(columns.first);
    let place = Place { line, column };
    let digits = digits_in(field).map_err(|cause| Refusal { cause, place })?;
    if digits.is_empty() {
        return Ok(Field::Blank(place));
    }
    let column = column + (field.len() - digits.len()) as u32;
    Ok(Field::Digits(Place { line, column }, digits))
}
