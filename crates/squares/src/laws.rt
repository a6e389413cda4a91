ghost use Rattle.squares.specs.AnyContent.{SamePairs};

use crate::SquareStore;

// A store's pairs are those that a square of bits in any memory stands for.
#[tactic(auto, using(crate::proofs::AnyContent::same_pairs))]
pub fn store_is_square(store: &SquareStore<'_>)
    ensures { SamePairs store.now.size store.now.memory.now }
{}
