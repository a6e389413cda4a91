ghost use Rattle.std.specs.Prelude.{◌≡◌, not, map, length, Decides};
ghost use Rattle.sets.specs.Sets.{member, Same};
ghost use Rattle.tables.specs.Panel.{count};
ghost use Rattle.reach.specs.Data.{panel_in, graph_in, sets_in, earlier_in, names_in, Settled, Renewed, Marked};
ghost use Rattle.reach.specs.Exact.{Anew};
ghost use Rattle.reach.specs.Moved.{passing, differs};

use crate::data::PlanData;
use crate::loads::Loads;
use sets::EntrySet;
use stores::store::DependencyStore;
use tables::index::ModuleIdx;

impl PlanData {
    // Works out the sets for every entry, with no edit before.
    pub fn settle<S: DependencyStore>(&mut self, store: &S)
        ensures { Settled (S.DependencyStore.loads store.now) self.old self.new }
    {
        let all = EntrySet::first(self.sets.entries);
        self.walk_again(store, all);
        self.keep_sets();
        self.moved.clear();
    }

    // Keeps the sets as the earlier ones, works them out again for the entries that are concerned, names the modules whose sets differ, and answers how many there are.
    pub fn renew<S: DependencyStore>(&mut self, store: &S, concern: EntrySet) -> usize
        ensures renewed { Renewed (S.DependencyStore.loads store.now) (member concern) self.old self.new }
        ensures counted { result ≡ length (names_in self.new) }
    {
        self.keep_sets();
        self.walk_again(store, concern);
        self.name_moved();
        self.moved.len()
    }

    // Sets or clears a module's mark; a number that no module has changes nothing.
    pub fn put_mark(&mut self, m: ModuleIdx, on: bool)
        ensures { Marked m.0 on self.old self.new }
    {
        self.export.included.put(m, on);
    }

    // Takes over the sets as the earlier ones.
    fn keep_sets(&mut self)
        ensures export { self.new.export ≡ self.old.export }
        ensures sets { self.new.sets ≡ self.old.sets }
        ensures earlier { earlier_in self.new ≡ sets_in self.old }
    {
        let PlanData { sets, earlier, .. } = self;
        earlier.sets.copy_from_slice(&sets.sets);
    }

    // Works out anew, for each entry that is concerned, which modules it reaches.
    fn walk_again<S: DependencyStore>(&mut self, store: &S, concern: EntrySet)
        ensures export { self.new.export ≡ self.old.export }
        ensures earlier { self.new.earlier ≡ self.old.earlier }
        ensures anew { Anew (length (panel_in self.old).entries) (panel_in self.old) (graph_in (S.DependencyStore.loads store.now) self.old) (member concern) (sets_in self.old) (sets_in self.new) }
    {
        let export = &self.export;
        let sets = &mut self.sets;
        let walker = &mut self.walker;
        let loads = Loads { store, export };
        for (e, entry) in export.table.entries.iter().enumerate() {
            if concern.contains(e) {
                loads.determine_reachable_modules_for_entry(entry.module, walker);
                sets.put_column(e, walker);
            }
        }
    }

    // Names the modules whose sets differ, and no others, in memory that is there.
    fn name_moved(&mut self)
        ensures export { self.new.export ≡ self.old.export }
        ensures sets { self.new.sets ≡ self.old.sets }
        ensures earlier { self.new.earlier ≡ self.old.earlier }
        ensures names { names_in self.new ≡ passing (differs (length (panel_in self.old).entries) (earlier_in self.old) (sets_in self.old)) 0 (count (panel_in self.old)) }
    {
        let PlanData {
            sets,
            earlier,
            moved,
            ..
        } = self;
        moved.clear();
        // by `as`, since that a number fits is proved, and `try_from` would add a case
        for (y, set) in sets.sets.iter().enumerate() {
            if differ(&earlier.get(y), set) {
                moved.push_reserved(ModuleIdx(y as u16));
            }
        }
    }
}

// Whether a set is another than before. Apart from `name_moved`, so that a wrong answer here is refused for the promise.
fn differ(before: &EntrySet, after: &EntrySet) -> bool
    ensures { Decides (not result) (Same before.now after.now) }
{
    !before.equals(after)
}
