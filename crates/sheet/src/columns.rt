// Numbers right-justified in columns.
ghost use Rattle.std.specs.Prelude.{◌≡◌, ◌+◌, ◌-◌, ◌<◌, ◌≤◌, ◌&&◌, length, drop, is_ok, if◌then◌else◌, decimal, nat_le};
ghost use Rattle.sheet.specs.Columns.{columns_for, columns_of, fits_columns, right_justified, with_columns};

// Some columns of a line: the first, counted from 1, and how many.
#[derive(Clone, Copy)]
pub(crate) struct Columns {
    pub(crate) first: u8,
    pub(crate) width: u8,
}

impl Columns {
    // How many bytes of a line stand before them.
    fn before(self) -> usize
        ensures { result ≡ self.first - 1 }
    {
        usize::from(self.first).saturating_sub(1)
    }

    // The bytes of a line that stand in them, as many as there are.
    pub(crate) fn cut(self, line: &[u8]) -> &[u8]
        ensures { result.now ≡ columns_of self.first self.width line.now }
    {
        let rest = line.get(self.before()..).unwrap_or(&[]);
        rest.get(..usize::from(self.width)).unwrap_or(rest)
    }

    // Puts a number into them; or, where they are past the line's end or it has
    // more digits, leaves the line as it is.
    pub(crate) fn put(self, line: &mut [u8], n: u32) -> Result<(), NoRoom>
        ensures fits { is_ok result ≡ nat_le (self.first - 1 + self.width) (length line.old) && fits_columns self.width n }
        ensures bytes { line.new ≡ (if is_ok result then with_columns self.first self.width n line.old else line.old) }
    {
        let start = self.before();
        let end = start + usize::from(self.width);
        // by index: with `get_mut` what the line is at a refusal got no proof, by `?`, `let else` or `and_then`
        if end > line.len() {
            return Err(NoRoom);
        }
        put_number(&mut line[start..end], n)
    }
}

// A number has more digits than there are columns, or a line more bytes than there is room for.
#[derive(Clone, Copy, Debug)]
pub struct NoRoom;

// Writes a number's digits to the end of the bytes, the last digit first, and says where they begin. (Counted by
// hand, since how many digits there are shows on the way; and computed, so that no table of constants is read.)
fn write_digits(out: &mut [u8; 10], n: u32) -> usize
    ensures within { result < 10 }
    ensures digits { drop result out.new ≡ decimal n }
{
    let mut i = 10;
    let mut rest = n;
    loop {
        i -= 1;
        out[i] = b'0' + (rest % 10) as u8;
        if rest < 10 {
            return i;
        }
        rest /= 10;
    }
}

// A number's decimal digits, written into the buffer.
#[tactic(auto, using(std::proofs::lemmas::List::take_rest))]
fn digits_of(buffer: &mut [u8; 10], n: u32) -> &[u8]
    ensures { result.now ≡ decimal n }
{
    let start = write_digits(buffer, n);
    &buffer[start..]
}

// Puts a text at the end of `out` and blanks before it; or, where it is longer
// than `out`, leaves that as it is. (A width in a format would let it push the columns.)
fn put_right(out: &mut [u8], text: &[u8]) -> Result<(), NoRoom>
    ensures fits { is_ok result ≡ nat_le (length text.now) (length out.old) }
    ensures bytes { out.new ≡ (if is_ok result then right_justified (length out.old) text.now else out.old) }
{
    let blanks = out.len().checked_sub(text.len()).ok_or(NoRoom)?;
    let (front, back) = out.split_at_mut(blanks);
    front.fill(b' ');
    back.copy_from_slice(text);
    Ok(())
}

// Puts a number into all the columns of `out`, right-justified; or, where it
// has more digits than there are columns, leaves them as they are.
pub fn put_number(out: &mut [u8], n: u32) -> Result<(), NoRoom>
    ensures fits { is_ok result ≡ fits_columns (length out.old) n }
    ensures bytes { out.new ≡ (if is_ok result then columns_for (length out.old) n else out.old) }
{
    let mut buffer = [b'0'; 10];
    put_right(out, digits_of(&mut buffer, n))
}
