ghost use Rattle.std.specs.Prelude.{◌≡◌, ◌≤◌, length, vec_len, vec_capacity};
ghost use Rattle.walks.specs.Walkers.{size_of};

use crate::set_table::SetTable;
use exports::export::Export;
use tables::index::ModuleIdx;
use walks::walker::Walker;

// All of a plan but its store; sets and earlier sets are two tables, since an edit copies one to the other as a whole, and marks stand beside the modules, since a table never changes: the table and the included marks, the sets, the sets before the last accepted edit, the modules that it moved, and memory for walks. No later call needs more memory.
#[derive(Drop)]
pub struct PlanData {
    pub(crate) export: Export,
    pub(crate) sets: SetTable,
    pub(crate) earlier: SetTable,
    pub(crate) moved: Vec<ModuleIdx>,
    pub(crate) walker: Walker,
    ghost sets_wide: { sets.entries ≡ length export.table.entries.items },
    ghost sets_long: { vec_len sets.sets ≡ length export.table.modules.items },
    ghost earlier_wide: { earlier.entries ≡ length export.table.entries.items },
    ghost earlier_long: { vec_len earlier.sets ≡ length export.table.modules.items },
    ghost moved_room: { length export.table.modules.items ≤ vec_capacity moved },
    ghost walker_size: { size_of walker ≡ length export.table.modules.items },
}
