ghost use Rattle.std.specs.Prelude.{◌≡◌, ℕ, false, map, slice_index_or};
ghost use Rattle.sets.specs.Sets.{member};
ghost use Rattle.tables.specs.View.{number};
ghost use Rattle.reach.specs.Data.{marks_in, sets_in, earlier_in, names_in};

use crate::data::PlanData;
use exports::export::Export;
use sets::EntrySet;
use tables::index::ModuleIdx;
use tables::table::Table;

impl PlanData {
    // The modules that the last accepted edit moved.
    pub fn moved(&self) -> &[ModuleIdx]
        ensures { map number result.now ≡ names_in self.now }
    {
        &self.moved
    }

    // The set of a module; an empty one for a number that no module has.
    pub fn set_of(&self, m: ModuleIdx) -> EntrySet
        ensures { (e : ℕ) → member result e ≡ sets_in self.now m.0 e }
    {
        self.sets.get(usize::from(m))
    }

    // The set of a module before the last accepted edit.
    pub fn earlier_set_of(&self, m: ModuleIdx) -> EntrySet
        ensures { (e : ℕ) → member result e ≡ earlier_in self.now m.0 e }
    {
        self.earlier.get(usize::from(m))
    }

    pub fn is_included(&self, m: ModuleIdx) -> bool
        ensures { result ≡ slice_index_or (marks_in self.now) m.0 false }
    {
        self.export.included.contains(m)
    }

    pub fn table(&self) -> &Table
        ensures { result.now ≡ self.now.export.table }
    {
        &self.export.table
    }

    // The table and the marks, as they are.
    pub fn into_export(self) -> Export
        ensures { result ≡ self.export }
    {
        let PlanData { export, .. } = self;
        export
    }
}
