// A dependency store as rows of ascending numbers in the caller's memory. It uses stores and tables.
#![tactic(auto)]

ghost use Rattle.std.specs.Prelude.{◌≡◌, ℕ, ◌<◌, ◌≤◌, ◌==◌, ◌&&◌, not, nat_lt, length, refl, slice_index, MatchOption};
ghost use Rattle.std.proofs.Common.{lit≤};
ghost use Rattle.stores.specs.Cells.{IsRow};
ghost use Rattle.stores.specs.Pairs.{below, degree, Smallest, NoneFrom};
ghost use Rattle.rows.specs.Rows.{ascending, listed, Parts, blank_ascends, blank_lists};

pub mod laws;

use stores::layout::Layout;
use stores::lent::LentStore;
use tables::index::ModuleIdx;

// No module's number: it fills a row behind the modules that are listed.
const END: u16 = 65535;

// A row as 65 numbers: the modules that are loaded, ascending, and END up to the row's end.
#[derive(Drop)]
pub struct Row;

pub type RowStore<'a> = LentStore<'a, Row>;

// How many numbers of the row are below `d`. Few are found soonest one after another, many by halves.
fn place(row: &[u16], d: u16) -> usize
    ensures { IsRow 65 ascending row.now → Parts row.now d result }
{
    if row.get(8).is_some_and(|x| *x < d) {
        place_by_halves(row, d)
    } else {
        place_in_turn(row, d)
    }
}

fn place_by_halves(row: &[u16], d: u16) -> usize
    ensures { IsRow 65 ascending row.now → Parts row.now d result }
{
    row.partition_point(|x| *x < d)
}

fn place_in_turn(row: &[u16], d: u16) -> usize
    ensures { IsRow 65 ascending row.now → Parts row.now d result }
{
    for (i, x) in row.iter().enumerate() {
        if *x >= d {
            return i;
        }
    }
    row.len()
}

// The first number at or above `from` and below `size` that the row lists.
fn first(row: &[u16], size: usize, from: u16) -> Option<u16>
    ensures { IsRow 65 ascending row.now → MatchOption result (NoneFrom (below size (listed row.now)) from) (Smallest (below size (listed row.now)) from) }
{
    let d = *row.get(place(row, from))?;
    if usize::from(d) < size { Some(d) } else { None }
}

// How many modules below `size` the row lists.
fn listed_below(row: &[u16], size: usize) -> usize
    ensures { IsRow 65 ascending row.now → size ≤ 512 → result ≡ degree (listed row.now) size }
{
    place(row, size.min(512) as u16)
}

// Whether `d` may come at `place`: the row has a free cell, and another number there.
fn has_room(row: &[u16], place: usize, d: u16) -> bool
    ensures { result ≡ (length row.now == 65 && (nat_lt place 64 && (slice_index row.now 63 == 65535 && not (slice_index row.now place == d)))) }
{
    row.len() == 65 && place < 64 && row[63] == END && row[place] != d
}

// Whether `d` stands at `place`.
fn stands(row: &[u16], place: usize, d: u16) -> bool
    ensures { result ≡ (length row.now == 65 && (nat_lt place 65 && slice_index row.now place == d)) }
{
    row.len() == 65 && place < 65 && row[place] == d
}

impl Layout for Row {
    type Cell = u16;

    const MEMORY_PER_MODULE: usize = 65;

    const BLANK: u16 = END;

    ghost MEMORY_PER_MODULE = { 65 };

    ghost BLANK = { 65535 };

    ghost numbers = { λ row. row };

    ghost ordered = { ascending };

    ghost listed = { listed };

    fn has(row: &[u16], d: ModuleIdx) -> bool {
        row.contains(&d.0)
    }

    fn next(row: &[u16], size: usize, from: ModuleIdx) -> Option<ModuleIdx> {
        first(row, size, from.0).map(ModuleIdx)
    }

    fn count(row: &[u16], size: usize) -> usize {
        listed_below(row, size)
    }

    #[tactic(auto, using(crate::proofs::Edited::put_row, crate::proofs::Edited::put_lists, crate::proofs::Edited::put_others))]
    fn put(row: &mut [u16], d: ModuleIdx) {
        let place = place(row, d.0);
        if has_room(row, place, d.0) {
            row[place..].rotate_right(1);
            row[place] = d.0;
        }
    }

    #[tactic(auto, using(crate::proofs::Edited::taken_row, crate::proofs::Edited::taken_lists))]
    fn take_out(row: &mut [u16], d: ModuleIdx) {
        let place = place(row, d.0);
        if stands(row, place, d.0) {
            row[place..].rotate_left(1);
            row[64] = END;
        }
    }

    ghost copies = { λ _. tt };

    ghost same = { λ x y e. e };

    ghost faithful = { λ xs ys e. e };

    ghost fits = { lit≤ tt };

    ghost blank_is_ordered = { blank_ascends };

    ghost blank_lists_none = { blank_lists };
}
