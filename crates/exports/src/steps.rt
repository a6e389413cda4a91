ghost use Rattle.std.specs.Prelude.{◌≡◌, [], ◌∷◌, ◌++◌, is_ok, if◌then◌else◌};
ghost use Rattle.exports.specs.Check.{verdict, Judged};
ghost use Rattle.exports.specs.Limits.{module_refusal, import_refusal, entry_refusal, listed_refusal};
ghost use Rattle.exports.specs.Steps.{Answered, empty_panel, with_module, new_module, with_import, with_entry, with_listed};
ghost use Rattle.tables.specs.View.{panel_of, import_of, entry_of};

use crate::add::{push_below, push_module, push_record};
use crate::check::judge;
use crate::export::{BuildError, Export};
use crate::limits::{ENTRY_LIMIT, LISTED_LIMIT, room_for_module, room_for_record};
use std::alloc::Global;
use tables::included::Included;
use tables::index::ModuleIdx;
use tables::module::{EntryPoint, ImportRecord, ModuleFlags, Options};
use tables::refusal::Refusal;
use tables::table::Table;

// Each step adds its one thing, or changes nothing.
impl Export {
    // No modules, records, entries or listed modules yet.
    pub fn new(heap: Global, options: Options) -> Export
        ensures panel { panel_of result.table ≡ empty_panel options }
        ensures marks { result.included.marks.items ≡ [] }
    {
        Export {
            table: Table {
                options,
                modules: Vec::new(heap),
                ids: Vec::new(heap),
                records: Vec::new(heap),
                entries: Vec::new(heap),
                listed: Vec::new(heap),
            },
            included: Included {
                marks: Vec::new(heap),
            },
        }
    }

    // One module more, without records.
    #[tactic(auto, using(crate::proofs::Refused::module_refusal_is))]
    pub fn add_module(
        &mut self,
        flags: ModuleFlags,
        exec_order: u32,
        id: &[u8],
    ) -> Result<(), BuildError>
        ensures panel { Answered (module_refusal (panel_of self.old.table) id.now) (panel_of self.old.table) (with_module (new_module flags exec_order id.now) (panel_of self.old.table)) result (panel_of self.new.table) }
        ensures marks { self.new.included.marks.items ≡ (if is_ok result then self.old.included.marks.items ++ flags.included ∷ [] else self.old.included.marks.items) }
    {
        room_for_module(&self.table, id)?;
        self.included.marks.reserve(1)?;
        push_module(&mut self.table, flags, exec_order, id)?;
        self.included.marks.push_reserved(flags.included);
        Ok(())
    }

    // One record more of the latest module.
    #[tactic(auto, using(crate::proofs::Refused::import_refusal_is))]
    pub fn add_import_record(&mut self, record: ImportRecord) -> Result<(), BuildError>
        ensures panel { Answered (import_refusal (panel_of self.old.table)) (panel_of self.old.table) (with_import (import_of «record») (panel_of self.old.table)) result (panel_of self.new.table) }
        ensures marks { self.new.included ≡ self.old.included }
    {
        room_for_record(&self.table)?;
        push_record(&mut self.table, record)?;
        Ok(())
    }

    // One entry more.
    pub fn add_entry(&mut self, entry: EntryPoint) -> Result<(), BuildError>
        ensures panel { Answered (entry_refusal (panel_of self.old.table)) (panel_of self.old.table) (with_entry (entry_of entry) (panel_of self.old.table)) result (panel_of self.new.table) }
        ensures marks { self.new.included ≡ self.old.included }
    {
        push_below(ENTRY_LIMIT, &mut self.table.entries, entry)
    }

    // One listed module more.
    pub fn add_listed(&mut self, m: ModuleIdx) -> Result<(), BuildError>
        ensures panel { Answered (listed_refusal (panel_of self.old.table)) (panel_of self.old.table) (with_listed m.0 (panel_of self.old.table)) result (panel_of self.new.table) }
        ensures marks { self.new.included ≡ self.old.included }
    {
        push_below(LISTED_LIMIT, &mut self.table.listed, m)
    }

    // Whether a finished export may be used, or the smallest refusal of it.
    pub fn check(&self) -> Result<(), Refusal>
        ensures verdict { result ≡ verdict (panel_of self.now.table) }
        ensures judged { Judged (panel_of self.now.table) result }
    {
        judge(&self.table)
    }
}
