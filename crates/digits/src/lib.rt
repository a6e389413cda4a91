// Upper-case hexadecimal: reading digits as numbers and bytes, and laying a number's digits. It uses no other crate.
#![tactic(auto)]

ghost use Rattle.std.specs.Prelude.{◌≡◌, ◌+◌, ◌*◌, ◌/◌, ◌%◌, ◌^◌, ◌<◌, ◌≤◌, leb, length, IfOk, if◌then◌else◌, Ok, Some, None, vec_items, is_ok, nat_le};
ghost use Rattle.std.specs.Option.{option_map};
ghost use Rattle.digits.specs.Digits.{value_of, digit_of, number_in, byte_of, bytes_in, digits};
ghost use Rattle.digits.specs.Lay.{laid};

use std::alloc::{AllocError, Global};

// The value of an upper-case digit.
pub fn digit_value(b: u8) -> Option<u8>
    ensures { result ≡ value_of b }
{
    match b {
        b'0'..=b'9' => Some(b - b'0'),
        b'A'..=b'F' => Some(b - b'A' + 10),
        _ => None,
    }
}

// The number that up to 16 digits write, the first digit the highest.
pub fn number(text: &[u8]) -> Option<u64>
    ensures { result ≡ (if leb (length text.now) 16 then number_in text.now else None) }
{
    if text.len() > 16 {
        return None;
    }
    let mut value: u64 = 0;
    for b in text {
        let d = digit_value(*b)?;
        value = 16 * value + u64::from(d);
    }
    Some(value)
}

#[tactic(auto, using(crate::proofs::Bytes::odd_none, crate::proofs::Bytes::behind_nothing))]
// The bytes that digits write, two digits a byte; none where one is no digit or one is left over, of which the second takes no memory.
pub fn decode(heap: Global, text: &[u8]) -> Result<Option<Vec<u8>>, AllocError>
    ensures bytes { IfOk result (λ o. option_map vec_items o ≡ bytes_in text.now) }
    ensures odd { length text.now % 2 ≡ 1 → result ≡ Ok None }
{
    if text.len() % 2 != 0 {
        return Ok(None);
    }
    let mut bytes = Vec::new(heap);
    let mut rest = text;
    while let [high, low, after @ ..] = rest {
        let Some(byte) = byte_value(*high, *low) else {
            return Ok(None);
        };
        bytes.push(byte)?;
        rest = after;
    }
    Ok(Some(bytes))
}

// The byte that two digits write.
fn byte_value(high: u8, low: u8) -> Option<u8>
    ensures { result ≡ byte_of high low }
{
    let h = digit_value(high)?;
    let l = digit_value(low)?;
    Some(16 * h + l)
}

// The digits do not fit into the buffer.
#[derive(Clone, Copy, Debug, PartialEq, Eq)]
pub struct NoRoom;

#[tactic(auto, using(crate::proofs::Hex::read_back))]
// Lays 2 * width digits of the value into the buffer from a place on; nothing is written where they do not fit.
pub fn lay_number(out: &mut [u8], at: usize, width: usize, value: u64) -> Result<(), NoRoom>
    ensures fits { is_ok result ≡ nat_le (at + 2 * width) (length out.old) }
    ensures after { out.new ≡ (if is_ok result then laid out.old at (digits (2 * width) value) else out.old) }
    ensures read_back { value < 16 ^ (2 * width) → number_in (digits (2 * width) value) ≡ Some value }
{
    if !has_room(out.len(), at, width) {
        return Err(NoRoom);
    }
    lay(out, at, 2 * width, value);
    Ok(())
}

// Whether 2 * width digits from a place on end within a length; the sum itself may be past the largest number.
fn has_room(len: usize, at: usize, width: usize) -> bool
    ensures { result ≡ nat_le (at + 2 * width) len }
{
    at <= len && width <= (len - at) / 2
}

// Lays the last digits of a value, as many as asked, from the first on.
fn lay(out: &mut [u8], at: usize, count: usize, value: u64)
    requires { at + count ≤ length out.old }
    ensures { out.new ≡ laid out.old at (digits count value) }
{
    // By index, since nothing is known of what an adapter of `iter_mut` wrote.
    for i in 0..count {
        out[at + i] = digit_at(value, count - 1 - i);
    }
}

// The digit of a value that stands before this many others.
fn digit_at(value: u64, place: usize) -> u8
    ensures { result ≡ digit_of (value / 16 ^ place % 16) }
{
    if place < 16 {
        digit((value >> (4 * place) & 15) as u8)
    } else {
        digit(0)
    }
}

// The digit of a value below 16.
fn digit(v: u8) -> u8
    requires { v < 16 }
    ensures { result ≡ digit_of v }
{
    if v < 10 { b'0' + v } else { b'A' - 10 + v }
}
