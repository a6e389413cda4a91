ghost use Rattle.std.specs.Prelude.{ℕ, ◌<◌};
ghost use Rattle.stores.specs.Cells.{row_of};
ghost use Rattle.rows.specs.AnyContent.{SamePairs};
ghost use Rattle.rows.specs.Rows.{OfModules, RowsAreOfModules};

use crate::RowStore;

// A row in order lists at most 64 modules, and then END to its end.
pub fn rows_are_of_modules()
    ensures { RowsAreOfModules }
{}

// Each row of a store is such a row of the store's modules, and its pairs are those that rows of any content stand for.
#[tactic(auto, using(crate::proofs::AnyContent::same_pairs))]
pub fn store_has_rows(store: &RowStore<'_>)
    ensures rows { (m : ℕ) → m < store.now.size → OfModules store.now.size (row_of 65 store.now.memory.now m) }
    ensures pairs { SamePairs store.now.size store.now.memory.now }
{}
