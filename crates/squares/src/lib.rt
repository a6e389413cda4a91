// A dependency store as a square of bits in the caller's memory. It uses sets, stores and tables.
#![tactic(auto)]

ghost use Rattle.std.specs.Prelude.{◌≡◌, ℕ, ◌/◌, ◌<◌, ◌≤◌, true, false, length, refl, MatchOption};
ghost use Rattle.std.proofs.Common.{lit≤};
ghost use Rattle.stores.specs.Pairs.{below, degree, with_number, Smallest, NoneFrom};
ghost use Rattle.squares.specs.Square.{bits_in, no_bits};

pub mod laws;

use stores::layout::Layout;
use stores::lent::LentStore;
use tables::index::ModuleIdx;

// A row as 512 bits in words of 64: bit d % 64 of word d / 64 says whether it lists d.
#[derive(Drop)]
pub struct Square;

pub type SquareStore<'a> = LentStore<'a, Square>;

// A bit of a row's words; the row is no set of entries.
fn is_set(row: &[u64], d: usize) -> bool
    ensures { result ≡ bits_in row.now d }
{
    match row.get(d / 64) {
        Some(word) => word >> (d % 64) & 1 == 1,
        None => false,
    }
}

// The first bit at or above `from` and below `size` that is set. It goes word by word, since most words of a row have none.
fn first_set(row: &[u64], from: usize, size: usize) -> Option<usize>
    requires { size ≤ 512 }
    ensures { MatchOption result (NoneFrom (below size (bits_in row.now)) from) (λ d. (d < size) × Smallest (below size (bits_in row.now)) from d) }
{
    let mut d = from;
    while d < size {
        let left = row.get(d / 64)? >> (d % 64);
        if left != 0 {
            let first = d + left.trailing_zeros() as usize;
            return if first < size { Some(first) } else { None };
        }
        d = 64 * (d / 64 + 1);
    }
    None
}

// `set` and `clear` are two, since they leave other things.
fn set(row: &mut [u64], d: usize)
    ensures { d / 64 < length row.old → (b : ℕ) → bits_in row.new b ≡ with_number true (bits_in row.old) d b }
{
    if d / 64 < row.len() {
        row[d / 64] |= 1 << (d % 64);
    }
}

fn clear(row: &mut [u64], d: usize)
    ensures { d / 64 < length row.old → (b : ℕ) → bits_in row.new b ≡ with_number false (bits_in row.old) d b }
{
    if d / 64 < row.len() {
        row[d / 64] &= !(1 << (d % 64));
    }
}

// How many bits below `size` are set.
fn set_below(row: &[u64], size: usize) -> usize
    ensures { result ≡ degree (bits_in row.now) size }
{
    (0..size).filter(|d| is_set(row, *d)).count()
}

impl Layout for Square {
    type Cell = u64;

    const MEMORY_PER_MODULE: usize = 8;

    const BLANK: u64 = 0;

    ghost MEMORY_PER_MODULE = { 8 };

    ghost BLANK = { 0 };

    ghost numbers = { λ words. words };

    ghost ordered = { λ _. true };

    ghost listed = { bits_in };

    fn has(row: &[u64], d: ModuleIdx) -> bool {
        is_set(row, usize::from(d))
    }

    fn next(row: &[u64], size: usize, from: ModuleIdx) -> Option<ModuleIdx> {
        let d = first_set(row, usize::from(from), size.min(512))?;
        // by `as`, since that it fits is proved, and `try_from` would add a case
        Some(ModuleIdx(d as u16))
    }

    fn count(row: &[u64], size: usize) -> usize {
        set_below(row, size)
    }

    fn put(row: &mut [u64], d: ModuleIdx) {
        set(row, usize::from(d));
    }

    fn take_out(row: &mut [u64], d: ModuleIdx) {
        clear(row, usize::from(d));
    }

    ghost copies = { λ _. tt };

    ghost same = { λ x y e. e };

    ghost faithful = { λ xs ys e. e };

    ghost fits = { lit≤ tt };

    ghost blank_is_ordered = { refl };

    ghost blank_lists_none = { λ d h. no_bits d };
}
