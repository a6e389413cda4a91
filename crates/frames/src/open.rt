ghost use Rattle.std.specs.Prelude.{◌≡◌, ◌+◌, ◌-◌, ◌^◌, ◌<◌, ◌≤◌, true, length, is_some};
ghost use Rattle.frames.specs.Text.{has_size, line_bytes, bytes_of, field, module_at, fits, letter_of};
ghost use Rattle.std.specs.List.{list_all};
ghost use Rattle.digits.specs.Digits.{value_of, bytes_in};
ghost use Rattle.frames.specs.Lines.{Opens};

use crate::line::Line;
use digits::{digit_value, number};
use tables::index::ModuleIdx;
use tables::refusal::Refusal;

// Opening a line: its letter, and the numbers in its bytes.

impl<'a> Line<'a> {
    pub(crate) fn new(text: &'a [u8]) -> Result<Line<'a>, Refusal>
        ensures { Opens text.now result }
    {
        let letter = letter_of(text)?;
        Ok(Line {
            digits: text,
            letter,
        })
    }

    // The module number in the two bytes from a place on.
    pub(crate) fn module_at(&self, from: usize) -> ModuleIdx
        requires { from + 2 ≤ length (bytes_of self.now.digits.now) }
        ensures { result ≡ module_at (bytes_of self.now.digits.now) from }
    {
        ModuleIdx(self.field(from, from + 2) as u16)
    }

    // The big-endian number in the bytes from one place on and before another.
    pub(crate) fn field(&self, from: usize, to: usize) -> u64
        requires count { to ≤ length (bytes_of self.now.digits.now) }
        requires width { (from ≤ to) × (to - from ≤ 8) }
        ensures value { result ≡ field (bytes_of self.now.digits.now) from to }
        ensures below { result < 256 ^ (to - from) }
    {
        field(self.digits, from, to)
    }
}

// As the method, of a line whose letter is not known yet.
fn field(line: &[u8], from: usize, to: usize) -> u64
    requires bytes { is_some (bytes_in line.now) ≡ true }
    requires count { to ≤ length (bytes_of line.now) }
    requires width { (from ≤ to) × (to - from ≤ 8) }
    ensures value { result ≡ field (bytes_of line.now) from to }
    ensures below { result < 256 ^ (to - from) }
{
    number(&line[2 * from..2 * to]).unwrap()
}

fn letter_of(line: &[u8]) -> Result<char, Refusal>
    ensures { result ≡ letter_of line.now }
{
    if !is_line(line) {
        return Err(Refusal::MalformedLine);
    }
    let code = field(line, 0, 1) as u8;
    let letter = code as char;
    if has_length(letter, line.len() / 2) {
        Ok(letter)
    } else {
        Err(Refusal::UnknownFrame)
    }
}

// Whether a line is 1 to 512 digits, two for each byte.
fn is_line(line: &[u8]) -> bool
    ensures { result ≡ is_some (line_bytes line.now) }
{
    has_size(line.len()) && are_digits(line)
}

fn has_size(len: usize) -> bool
    ensures { result ≡ has_size len }
{
    (1..=512).contains(&len) && len % 2 == 0
}

fn are_digits(text: &[u8]) -> bool
    ensures { result ≡ list_all (λ b. is_some (value_of b)) text.now }
{
    text.iter().all(|b| is_digit(*b))
}

fn is_digit(b: u8) -> bool
    ensures { result ≡ is_some (value_of b) }
{
    digit_value(b).is_some()
}

// Whether a frame with this letter may have this many bytes.
fn has_length(letter: char, bytes: usize) -> bool
    ensures { result ≡ fits letter bytes }
{
    match letter {
        'G' | 'R' | 'E' => bytes == 4,
        'M' => bytes >= 7,
        'S' | 'I' | 'X' => bytes == 3,
        'L' | 'U' => bytes == 5,
        'D' => bytes == 1,
        _ => false,
    }
}
