ghost use Rattle.std.specs.Prelude.{◌≡◌, ◌≤◌, true, map, length};
ghost use Rattle.tables.specs.Spans.{tiled};

use crate::index::ModuleIdx;
use crate::module::{EntryPoint, ImportRecord, Module, Options};

// All of an export that stays as it was read. Ids and import records of all modules lie one after another, in the order of the modules.
#[derive(Drop)]
pub struct Table {
    pub options: Options,
    pub modules: Vec<Module>,
    pub ids: Vec<u8>,
    pub records: Vec<ImportRecord>,
    pub entries: Vec<EntryPoint>,
    pub listed: Vec<ModuleIdx>,
    // ids and records are tiled by the modules, and the limits are kept
    ghost ids_tiled: { tiled 0 (map (λ m. m.id) modules.items) (length ids.items) ≡ true },
    ghost records_tiled: { tiled 0 (map (λ m. m.import_records) modules.items) (length records.items) ≡ true },
    ghost modules_few: { length modules.items ≤ 512 },
    ghost records_few: { length records.items ≤ 8192 },
    ghost entries_few: { length entries.items ≤ 64 },
    ghost listed_few: { length listed.items ≤ 512 },
}
