ghost use Rattle.std.specs.Prelude.{◌≡◌, ℕ, ◌<◌, ◌≤◌, false, ◌&&◌, IfOk, if◌then◌else◌, vec_len, nat_eq, nat_lt};
ghost use Rattle.sets.specs.Sets.{member};
ghost use Rattle.walks.specs.Walks.{has};
ghost use Rattle.walks.specs.Walkers.{taken_by};
ghost use Rattle.reach.specs.Held.{held};

use crate::set_table::SetTable;
use sets::EntrySet;
use std::alloc::{AllocError, Global};
use walks::walker::Walker;

impl SetTable {
    // No entry in any set.
    #[tactic(auto, using(crate::proofs::Helds::held_empty))]
    pub fn new(heap: Global, entries: usize, count: usize) -> Result<SetTable, AllocError>
        ensures wide { IfOk result (λ t. t.entries ≡ entries) }
        ensures long { IfOk result (λ t. vec_len t.sets ≡ count) }
        ensures empty { IfOk result (λ t. (y e : ℕ) → held t.sets.items y e ≡ false) }
    {
        let sets = vec![in heap; EntrySet::empty(); count]?;
        Ok(SetTable { entries, sets })
    }

    // The set of a module; an empty one for a number that no module has.
    #[tactic(auto, using(crate::proofs::Helds::held_past))]
    pub fn get(&self, y: usize) -> EntrySet
        ensures { (e : ℕ) → member result e ≡ held self.now.sets.items y e }
    {
        self.sets.get(y).copied().unwrap_or(EntrySet::empty())
    }

    // Puts entry `e` into the sets of the modules that were taken, and out of all others.
    pub(crate) fn put_column(&mut self, e: usize, walker: &Walker)
        requires entry { e < self.old.entries }
        requires few { e < 64 }
        ensures wide { self.new.entries ≡ self.old.entries }
        ensures long { vec_len self.new.sets ≡ vec_len self.old.sets }
        ensures held { (y k : ℕ) → held self.new.sets.items y k ≡ (if nat_eq k e && nat_lt y (vec_len self.old.sets) then has (taken_by walker.now) y else held self.old.sets.items y k) }
    {
        for (y, set) in self.sets.iter_mut().enumerate() {
            put(set, e, walker.has_taken(y));
        }
    }
}

// Whether entry `e` is in the set from now on.
fn put(set: &mut EntrySet, e: usize, on: bool)
    requires { e < 64 }
    ensures { (k : ℕ) → member set.new k ≡ (if nat_eq k e then on else member set.old k) }
{
    if on {
        set.insert(e);
    } else {
        set.subtract(EntrySet::single(e));
    }
}
