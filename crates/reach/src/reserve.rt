ghost use Rattle.std.specs.Prelude.{◌≡◌, ◌≤◌, IfOk, MatchResult, vec_len, vec_capacity};
ghost use Rattle.walks.specs.Walkers.{size_of};

use crate::data::PlanData;
use crate::set_table::SetTable;
use exports::export::Export;
use std::alloc::{AllocError, Global};
use tables::index::ModuleIdx;
use walks::walker::Walker;

// The sets, the earlier sets, room for what an edit names, and a walker, for so many entries and modules.
fn reserve(
    heap: Global,
    entries: usize,
    count: usize,
) -> Result<(SetTable, SetTable, Vec<ModuleIdx>, Walker), AllocError>
    ensures sets { IfOk result (λ t. (t.0.entries ≡ entries) × (vec_len t.0.sets ≡ count)) }
    ensures earlier { IfOk result (λ t. (t.1.entries ≡ entries) × (vec_len t.1.sets ≡ count)) }
    ensures moved { IfOk result (λ t. count ≤ vec_capacity t.2) }
    ensures walker { IfOk result (λ t. size_of t.3 ≡ count) }
{
    let sets = SetTable::new(heap, entries, count)?;
    let earlier = SetTable::new(heap, entries, count)?;
    let moved = Vec::with_capacity(heap, count)?;
    let walker = Walker::new(heap, count)?;
    Ok((sets, earlier, moved, walker))
}

impl PlanData {
    // All the memory that a plan of this export needs, with nothing worked out; where it is wanting, the export comes back.
    pub fn new(heap: Global, export: Export) -> Result<PlanData, Export>
        ensures { MatchResult result (λ d. d.export ≡ export) (λ back. back ≡ export) }
    {
        let entries = export.table.entries.len();
        let count = export.table.modules.len();
        let Ok((sets, earlier, moved, walker)) = reserve(heap, entries, count) else {
            return Err(export);
        };
        Ok(PlanData {
            export,
            sets,
            earlier,
            moved,
            walker,
        })
    }
}
