ghost use Rattle.std.specs.Prelude.{◌≡◌, ◌≤◌, map, length, IfSome, MatchOption};
ghost use Rattle.tables.specs.Panel.{count, at, no_module};
ghost use Rattle.tables.specs.View.{panel_of, module_of, import_of, entry_of, number, is_by_id};

use crate::index::ModuleIdx;
use crate::module::{EntryPoint, ImportRecord, Module, Options, Span, WrapKind};
use crate::table::Table;

// Each answers plainly of a number that no module has.
impl Table {
    // How many modules there are.
    pub fn len(&self) -> usize
        ensures { result ≡ count (panel_of self.now) }
    {
        self.modules.len()
    }

    fn module(&self, m: ModuleIdx) -> Option<&Module>
        ensures view { MatchOption result (at (panel_of self.now) m.0 ≡ no_module) (λ r. at (panel_of self.now) m.0 ≡ module_of self.now.ids.items self.now.records.items r.now) }
        ensures id { IfSome result (λ r. (r.now.id.start ≤ r.now.id.end) × (r.now.id.end ≤ length self.now.ids.items)) }
        ensures records { IfSome result (λ r. (r.now.import_records.start ≤ r.now.import_records.end) × (r.now.import_records.end ≤ length self.now.records.items)) }
    {
        self.modules.get(usize::from(m))
    }

    pub fn is_external(&self, m: ModuleIdx) -> bool
        ensures { result ≡ (at (panel_of self.now) m.0).external }
    {
        self.module(m).is_some_and(|m| m.external)
    }

    pub fn is_json(&self, m: ModuleIdx) -> bool
        ensures { result ≡ (at (panel_of self.now) m.0).json }
    {
        self.module(m).is_some_and(|m| m.json)
    }

    pub fn is_order_sensitive(&self, m: ModuleIdx) -> bool
        ensures { result ≡ (at (panel_of self.now) m.0).sensitive }
    {
        self.module(m).is_some_and(|m| m.order_sensitive)
    }

    pub fn wrap_kind(&self, m: ModuleIdx) -> WrapKind
        ensures { result ≡ (at (panel_of self.now) m.0).wrap }
    {
        self.module(m).map_or(WrapKind::None, |m| m.wrap_kind)
    }

    pub fn exec_order(&self, m: ModuleIdx) -> u32
        ensures { result ≡ (at (panel_of self.now) m.0).order }
    {
        self.module(m).map_or(0, |m| m.exec_order)
    }

    pub fn id(&self, m: ModuleIdx) -> &[u8]
        ensures { result.now ≡ (at (panel_of self.now) m.0).ident }
    {
        match self.module(m) {
            Some(module) => {
                let Span { start, end } = module.id;
                &self.ids[start..end]
            }
            None => &[],
        }
    }

    pub fn import_records(&self, m: ModuleIdx) -> &[ImportRecord]
        ensures { map import_of result.now ≡ (at (panel_of self.now) m.0).imports }
    {
        match self.module(m) {
            Some(module) => {
                let Span { start, end } = module.import_records;
                &self.records[start..end]
            }
            None => &[],
        }
    }

    pub fn entries(&self) -> &[EntryPoint]
        ensures { map entry_of result.now ≡ (panel_of self.now).entries }
    {
        self.entries.as_slice()
    }

    pub fn listed(&self) -> &[ModuleIdx]
        ensures { map number result.now ≡ (panel_of self.now).listed }
    {
        self.listed.as_slice()
    }

    pub fn options(&self) -> Options
        ensures runtime { result.runtime_module.0 ≡ (panel_of self.now).runtime }
        ensures splitting { result.code_splitting ≡ (panel_of self.now).splitting }
        ensures order { is_by_id result.chunk_modules_order ≡ (panel_of self.now).by_id }
    {
        self.options
    }
}
