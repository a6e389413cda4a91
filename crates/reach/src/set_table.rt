ghost use Rattle.std.specs.Prelude.{◌≡◌, ℕ, ◌≤◌, false};
ghost use Rattle.reach.specs.Held.{held};

use sets::EntrySet;

// The set of each module, over so many entries.
#[derive(Drop)]
pub struct SetTable {
    pub(crate) entries: usize,
    pub(crate) sets: Vec<EntrySet>,
    // no set has a bit at or above the number of entries
    ghost within: { (y e : ℕ) → entries ≤ e → held sets.items y e ≡ false },
}
