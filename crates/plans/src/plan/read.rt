ghost use Rattle.std.specs.Prelude.{◌≡◌, ℕ, false, map, Decides, slice_index_or};
ghost use Rattle.sets.specs.Sets.{member};
ghost use Rattle.tables.specs.Graph.{Graph, Reaches};
ghost use Rattle.tables.specs.Panel.{Panel};
ghost use Rattle.tables.specs.View.{number};
ghost use Rattle.reach.specs.Data.{marks_in, sets_in, earlier_in, names_in};
ghost use Rattle.plans.specs.Accounts.{Accounts};
ghost use Rattle.plans.specs.Book.{History, book, earlier_book, last_named};

use crate::plan::Plan;
use exports::export::Export;
use sets::EntrySet;
use stores::store::DependencyStore;
use tables::index::ModuleIdx;
use tables::table::Table;

// Questions: each changes nothing, and says what it means by the book of any history that the plan accounts for. No invariant says so, since it could name only that there is some history.
impl<S: DependencyStore> Plan<S> {
    // The modules that the last accepted edit moved, ascending.
    pub fn moved(&self) -> &[ModuleIdx]
        ensures names { map number result.now ≡ names_in self.now.data }
        ensures lawful { (p : Panel) (g : Graph) (h : History) → Accounts S.modules S.loads p g h self.now → map number result.now ≡ last_named h }
    {
        self.data.moved()
    }

    // The entries that reach a module; none for a number that no module has.
    pub fn set_of(&self, m: ModuleIdx) -> EntrySet
        ensures members { (e : ℕ) → member result e ≡ sets_in self.now.data m.0 e }
        ensures lawful { (p : Panel) (g : Graph) (h : History) → Accounts S.modules S.loads p g h self.now → (e : ℕ) → Decides (member result e) (Reaches p (book g h) e m.0) }
    {
        self.data.set_of(m)
    }

    // The entries that reached a module before the last accepted edit.
    pub fn earlier_set_of(&self, m: ModuleIdx) -> EntrySet
        ensures members { (e : ℕ) → member result e ≡ earlier_in self.now.data m.0 e }
        ensures lawful { (p : Panel) (g : Graph) (h : History) → Accounts S.modules S.loads p g h self.now → (e : ℕ) → Decides (member result e) (Reaches p (earlier_book g h) e m.0) }
    {
        self.data.earlier_set_of(m)
    }

    // Whether an entry reaches a module.
    pub fn reaches(&self, e: usize, m: ModuleIdx) -> bool
        ensures value { result ≡ sets_in self.now.data m.0 e }
        ensures lawful { (p : Panel) (g : Graph) (h : History) → Accounts S.modules S.loads p g h self.now → Decides result (Reaches p (book g h) e m.0) }
    {
        self.set_of(m).contains(e)
    }

    pub fn is_included(&self, m: ModuleIdx) -> bool
        ensures value { result ≡ slice_index_or (marks_in self.now.data) m.0 false }
        ensures lawful { (p : Panel) (g : Graph) (h : History) → Accounts S.modules S.loads p g h self.now → result ≡ (book g h).included m.0 }
    {
        self.data.is_included(m)
    }

    pub fn table(&self) -> &Table
        ensures { result.now ≡ self.now.data.export.table }
    {
        self.data.table()
    }

    // The store, to read.
    pub fn store(&self) -> &S
        ensures { result.now ≡ self.now.store }
    {
        &self.store
    }

    // The table with the marks, and the store, as they are.
    pub fn into_parts(self) -> (Export, S)
        ensures export { result.0 ≡ self.data.export }
        ensures store { result.1 ≡ self.store }
    {
        let Plan { store, data } = self;
        (data.into_export(), store)
    }
}
