ghost use Rattle.std.specs.Prelude.{◌≡◌, ℕ, ◌<◌, true, false, not, ◌&&◌, length};
ghost use Rattle.sets.specs.Sets.{member};
ghost use Rattle.tables.specs.Graph.{start};
ghost use Rattle.tables.specs.Panel.{count};
ghost use Rattle.reach.specs.Data.{panel_in, sets_in, SparedByInclude};

use crate::data::PlanData;
use sets::EntrySet;
use stores::store::DependencyStore;
use tables::index::ModuleIdx;

// The entries that an edit can concern: of all others it is known before the edit that they reach the same modules after it.
impl PlanData {
    // To link m to d concerns those that reach m and not yet d.
    pub fn link_concern(&self, m: ModuleIdx, d: ModuleIdx) -> EntrySet
        ensures { (e : ℕ) → member result e ≡ (sets_in self.now m.0 e && not (sets_in self.now d.0 e)) }
    {
        let mut concern = self.set_of(m);
        concern.subtract(self.set_of(d));
        concern
    }

    // To unlink m from d concerns those that reach both.
    pub fn unlink_concern(&self, m: ModuleIdx, d: ModuleIdx) -> EntrySet
        ensures { (e : ℕ) → member result e ≡ (sets_in self.now m.0 e && sets_in self.now d.0 e) }
    {
        let mut concern = self.set_of(m);
        concern.intersect(self.set_of(d));
        concern
    }

    // To exclude m concerns those that reach it.
    pub fn exclude_concern(&self, m: ModuleIdx) -> EntrySet
        ensures { (e : ℕ) → member result e ≡ sets_in self.now m.0 e }
    {
        self.set_of(m)
    }

    // To include m concerns those that start at it or reach a module that loads it, and do not reach it yet.
    pub fn include_concern<S: DependencyStore>(&self, store: &S, m: ModuleIdx) -> EntrySet
        ensures { (e : ℕ) → e < length (panel_in self.now).entries → member result e ≡ false → SparedByInclude (panel_in self.now) (S.DependencyStore.loads store.now) (sets_in self.now) m.0 e }
    {
        let mut concern = self.starting_at(m);
        concern.unite(self.loading(store, m));
        concern.subtract(self.set_of(m));
        concern
    }

    // The entries of a module.
    fn starting_at(&self, m: ModuleIdx) -> EntrySet
        ensures { (e : ℕ) → e < length (panel_in self.now).entries → start (panel_in self.now) e ≡ m.0 → member result e ≡ true }
    {
        let mut found = EntrySet::empty();
        for (e, entry) in self.export.table.entries.iter().enumerate() {
            if entry.module == m {
                found.insert(e);
            }
        }
        found
    }

    // The entries that reach a module that loads `d`.
    fn loading<S: DependencyStore>(&self, store: &S, d: ModuleIdx) -> EntrySet
        ensures { (m e : ℕ) → m < count (panel_in self.now) → S.DependencyStore.loads store.now m d.0 ≡ true → sets_in self.now m e ≡ true → member result e ≡ true }
    {
        let mut found = EntrySet::empty();
        // by `as`, since that a number fits is proved, and `try_from` would add a case
        for (m, set) in self.sets.sets.iter().enumerate() {
            if store.has(ModuleIdx(m as u16), d) {
                found.unite(*set);
            }
        }
        found
    }
}
