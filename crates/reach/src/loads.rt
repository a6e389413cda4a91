ghost use Rattle.std.specs.Prelude.{◌≡◌, ℕ, MatchOption};
ghost use Rattle.stores.specs.Pairs.{Smallest, NoneFrom};
ghost use Rattle.tables.specs.Graph.{open_at};
ghost use Rattle.tables.specs.Panel.{count};
ghost use Rattle.tables.specs.View.{panel_of};
ghost use Rattle.walks.specs.Walks.{has};
ghost use Rattle.walks.specs.Walkers.{size_of, taken_by};
ghost use Rattle.reach.specs.Arcs.{graph_of, arcs_from};
ghost use Rattle.reach.specs.Exact.{Told};

use exports::export::Export;
use stores::store::DependencyStore;
use tables::index::ModuleIdx;
use walks::arcs::Arcs;
use walks::walker::Walker;

// The pairs of a store that lead to an open module, as arcs.
#[derive(Drop)]
pub(crate) struct Loads<'s, 'e, S> {
    pub(crate) store: &'s S,
    pub(crate) export: &'e Export,
}

impl<S: DependencyStore> Loads<'_, '_, S> {
    // The smallest module at or above `from` that `m` loads, as the store has it. A function of its own, so that a plan that never reads its store is refused for what this promises.
    fn next_loaded(&self, m: ModuleIdx, from: ModuleIdx) -> Option<ModuleIdx>
        ensures { MatchOption result (NoneFrom (S.DependencyStore.loads self.now.store.now m.0) from.0) (λ d. Smallest (S.DependencyStore.loads self.now.store.now m.0) from.0 d.0) }
    {
        self.store.next(m, from)
    }

    // Whether a path may pass a module.
    pub(crate) fn is_open(&self, m: ModuleIdx) -> bool
        ensures { result ≡ open_at (panel_of self.now.export.now.table) (graph_of (S.DependencyStore.loads self.now.store.now) self.now.export.now.included.marks.items) m.0 }
    {
        let table = &self.export.table;
        usize::from(m) < table.len() && !table.is_external(m) && self.export.included.contains(m)
    }

    // Takes the modules to which a path leads from the module of an entry.
    pub(crate) fn determine_reachable_modules_for_entry(
        &self,
        start: ModuleIdx,
        walker: &mut Walker,
    )
        requires { size_of walker.old ≡ count (panel_of self.now.export.now.table) }
        ensures size { size_of walker.new ≡ size_of walker.old }
        ensures told { Told (panel_of self.now.export.now.table) (graph_of (S.DependencyStore.loads self.now.store.now) self.now.export.now.included.marks.items) start.0 (has (taken_by walker.new)) }
    {
        if self.is_open(start) {
            let _ = walker.walk(self, &[usize::from(start)]);
        } else {
            let _ = walker.walk(self, &[]);
        }
    }
}

impl<S: DependencyStore> Arcs for Loads<'_, '_, S> {
    ghost nodes = { λ s. count (panel_of s.export.now.table) };

    ghost rest = { λ s. arcs_from (panel_of s.export.now.table) (graph_of (S.DependencyStore.loads s.store.now) s.export.now.included.marks.items) };

    fn size(&self) -> usize {
        self.export.table.len()
    }

    fn next(&self, node: usize, at: usize) -> Option<(usize, usize)> {
        let count = self.size();
        if node >= count || at >= count {
            return None;
        }
        // by `as`, since that the numbers fit is proved, and `try_from` would add a case
        let m = ModuleIdx(node as u16);
        // The store hands out its modules from a number on, so the cursor is moved by hand.
        let mut from = at as u16;
        while let Some(d) = self.next_loaded(m, ModuleIdx(from)) {
            let target = usize::from(d);
            if target >= count {
                return None;
            }
            if self.is_open(d) {
                return Some((target, target + 1));
            }
            from = d.0 + 1;
        }
        None
    }
}
