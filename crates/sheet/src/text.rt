// Bytes of a line: the first line feed, blanks in front, digits and the number they write.
ghost use Rattle.std.specs.Prelude.{◌≡◌, ◌≤◌, true, length};
ghost use Rattle.std.specs.Str.{all_ascii_digits};
ghost use Rattle.sheet.specs.Text.{ends_at_32, after_blanks, with_digit, number_of};

// Whether the first line feed is byte 32, counted from 1.
pub(crate) fn ends_at_32(s: &[u8]) -> bool
    ensures is { result ≡ ends_at_32 s.now }
    ensures long { result ≡ true → 32 ≤ length s.now }
{
    s.iter().position(|b| *b == b'\n') == Some(31)
}

// What follows the blanks in front.
pub(crate) fn after_blanks(s: &[u8]) -> &[u8]
    ensures { result.now ≡ after_blanks s.now }
{
    let blanks = s.iter().take_while(|b| **b == b' ').count();
    &s[blanks..]
}

// Whether every byte is a decimal digit.
pub(crate) fn all_digits(s: &[u8]) -> bool
    ensures { result ≡ all_ascii_digits s.now }
{
    s.iter().all(u8::is_ascii_digit)
}

// The number with one digit more; none for another byte, or above 4,294,967,295.
fn with_digit(n: u32, b: u8) -> Option<u32>
    ensures { result ≡ with_digit n b }
{
    let digit = char::from(b).to_digit(10)?;
    n.checked_mul(10)?.checked_add(digit)
}

// The number that digits write; none for another byte, or above 4,294,967,295.
pub(crate) fn number(s: &[u8]) -> Option<u32>
    ensures { result ≡ number_of s.now }
{
    s.iter().try_fold(0, |n, b| with_digit(n, *b))
}
