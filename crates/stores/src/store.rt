ghost use Rattle.std.specs.Prelude.{◌≡◌, ℕ, ◌<◌, Bool, true, false, List, is_ok, MatchOption};
ghost use Rattle.stores.specs.Answers.{Links, Unlinks};
ghost use Rattle.stores.specs.Pairs.{Smallest, NoneFrom};

use tables::index::ModuleIdx;
use tables::refusal::Refusal;

// A size, and a set of pairs of module numbers below it, which says which module loads which.
pub trait DependencyStore {
    // How many numbers or words of the caller's memory a module takes.
    const MEMORY_PER_MODULE: usize;

    // how many modules there are
    ghost modules: { Self → ℕ };

    // whether the first module loads the second
    ghost loads: { Self → ℕ → ℕ → Bool };

    // only numbers of modules stand in pairs
    ghost within: { (s : Self) (a b : ℕ) → loads s a b ≡ true → (a < modules s) × (b < modules s) };

    // what of the caller's memory lies past the store's own
    ghost outside: { Self → List ℕ };

    fn size(&self) -> usize
        ensures { result ≡ modules self.now };

    fn has(&self, m: ModuleIdx, d: ModuleIdx) -> bool
        ensures { result ≡ loads self.now m.0 d.0 };

    // The smallest module at or above `from` that `m` loads.
    fn next(&self, m: ModuleIdx, from: ModuleIdx) -> Option<ModuleIdx>
        ensures { MatchOption result (NoneFrom (loads self.now m.0) from.0) (λ d. Smallest (loads self.now m.0) from.0 d.0) };

    // Adds the pair, in the store's own memory; a refusal leaves the store, its memory included, as it was.
    fn link(&mut self, m: ModuleIdx, d: ModuleIdx) -> Result<(), Refusal>
        ensures links { Links (modules self.old) (modules self.new) (loads self.old) (loads self.new) m.0 d.0 result }
        ensures refused { is_ok result ≡ false → self.new ≡ self.old }
        ensures kept { outside self.new ≡ outside self.old };

    // Removes the pair, in the store's own memory; a refusal leaves the store, its memory included, as it was.
    fn unlink(&mut self, m: ModuleIdx, d: ModuleIdx) -> Result<(), Refusal>
        ensures unlinks { Unlinks (modules self.old) (modules self.new) (loads self.old) (loads self.new) m.0 d.0 result }
        ensures refused { is_ok result ≡ false → self.new ≡ self.old }
        ensures kept { outside self.new ≡ outside self.old };
}
