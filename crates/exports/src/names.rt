ghost use Rattle.std.specs.Prelude.{◌≡◌, ℕ, Bool, nat_le};
ghost use Rattle.std.specs.List.{list_any};
ghost use Rattle.exports.specs.Beyond.{resolves_beyond};

use tables::index::ModuleIdx;
use tables::module::{EntryPoint, ImportRecord};

// What names a module, or may name one.
pub(crate) trait NamesModule {
    // whether it names a number at or above a count of modules
    ghost beyond: { ℕ → Self → Bool };

    fn is_beyond(&self, count: usize) -> bool
        ensures { result ≡ beyond count self.now };
}

impl NamesModule for ModuleIdx {
    ghost beyond = { λ count m. nat_le count m.0 };

    fn is_beyond(&self, count: usize) -> bool {
        usize::from(*self) >= count
    }
}

impl NamesModule for EntryPoint {
    ghost beyond = { λ count e. nat_le count e.«module».0 };

    fn is_beyond(&self, count: usize) -> bool {
        self.module.is_beyond(count)
    }
}

impl NamesModule for ImportRecord {
    ghost beyond = { resolves_beyond };

    fn is_beyond(&self, count: usize) -> bool {
        self.resolved_module.is_some_and(|m| m.is_beyond(count))
    }
}

// Whether one of them names a number at or above a count of modules.
pub(crate) fn any_beyond<T: NamesModule>(count: usize, items: &[T]) -> bool
    ensures { result ≡ list_any (T.NamesModule.beyond count) items.now }
{
    items.iter().any(|item| item.is_beyond(count))
}
