ghost use Rattle.std.specs.Prelude.{◌≡◌, ℕ, ◌*◌, ◌<◌, ◌≤◌, ◌≢◌, Bool, true, false, List, length, replicate, MatchOption};
ghost use Rattle.stores.specs.Pairs.{below, degree, with_number, HasRoom, Smallest, NoneFrom};
ghost use Rattle.stores.specs.Cells.{IsRow};

use tables::index::ModuleIdx;

// How the modules that one module loads lie in its row, a run of cells of the caller's memory. A row is handed over as a slice, since a type around the part of a lent slice would be made anew at each call; a function takes any slice and number, and says what it does with a row's and a module's.
pub trait Layout {
    // What a cell is: a number or a word.
    type Cell: Copy;

    // How many cells a row has.
    const MEMORY_PER_MODULE: usize;

    // What each cell holds in the row of a module that loads none.
    const BLANK: Self::Cell;

    ghost MEMORY_PER_MODULE: { ℕ };

    ghost BLANK: { Self.Cell };

    // the cells, as numbers
    ghost numbers: { List Self.Cell → List ℕ };

    // what the store keeps true of each row
    ghost ordered: { List Self.Cell → Bool };

    // whether a row lists the number
    ghost listed: { List Self.Cell → ℕ → Bool };

    fn has(row: &[Self::Cell], d: ModuleIdx) -> bool
        ensures { IsRow MEMORY_PER_MODULE ordered row.now → result ≡ listed row.now d.0 };

    // The smallest number at or above `from` and below `size` that the row lists.
    fn next(row: &[Self::Cell], size: usize, from: ModuleIdx) -> Option<ModuleIdx>
        ensures { IsRow MEMORY_PER_MODULE ordered row.now → size ≤ 512 → MatchOption result (NoneFrom (below size (listed row.now)) from.0) (λ d. Smallest (below size (listed row.now)) from.0 d.0) };

    // How many numbers below `size` the row lists.
    fn count(row: &[Self::Cell], size: usize) -> usize
        ensures { IsRow MEMORY_PER_MODULE ordered row.now → size ≤ 512 → result ≡ degree (listed row.now) size };

    // Adds the number, where the row lists fewer than 64.
    fn put(row: &mut [Self::Cell], d: ModuleIdx)
        ensures row { IsRow MEMORY_PER_MODULE ordered row.old → d.0 < 512 → ordered row.new ≡ true }
        ensures lists { IsRow MEMORY_PER_MODULE ordered row.old → d.0 < 512 → HasRoom (listed row.old) → (b : ℕ) → b < 512 → listed row.new b ≡ with_number true (listed row.old) d.0 b }
        ensures others { IsRow MEMORY_PER_MODULE ordered row.old → d.0 < 512 → (b : ℕ) → b < 512 → b ≢ d.0 → listed row.new b ≡ listed row.old b };

    fn take_out(row: &mut [Self::Cell], d: ModuleIdx)
        ensures row { IsRow MEMORY_PER_MODULE ordered row.old → d.0 < 512 → ordered row.new ≡ true }
        ensures lists { IsRow MEMORY_PER_MODULE ordered row.old → d.0 < 512 → (b : ℕ) → b < 512 → listed row.new b ≡ with_number false (listed row.old) d.0 b };

    // a copy of a cell cannot fail, and is the cell
    ghost copies: { (x : Self.Cell) → Self.Cell.is_infallible x };

    ghost same: { (x y : Self.Cell) → Self.Cell.is_clone x y → y ≡ x };

    // cells that are the same numbers are the same
    ghost faithful: { (xs ys : List Self.Cell) → numbers xs ≡ numbers ys → xs ≡ ys };

    ghost fits: { MEMORY_PER_MODULE ≤ 65 };

    ghost blank_is_ordered: { ordered (replicate MEMORY_PER_MODULE BLANK) ≡ true };

    ghost blank_lists_none: { (d : ℕ) → d < 512 → listed (replicate MEMORY_PER_MODULE BLANK) d ≡ false };
}
