ghost use Rattle.std.specs.Prelude.{◌≡◌, ◌+◌, ◌<◌, [], ◌∷◌, ◌++◌, length, cond, is_ok, if◌then◌else◌, Some, None, nat_lt};
ghost use Rattle.tables.specs.declared.refusal.Refusal.TheVariants.{Limit};
ghost use Rattle.exports.specs.Steps.{Answered, with_module, new_module, with_import};
ghost use Rattle.tables.specs.View.{panel_of, import_of};

use crate::export::BuildError;
use crate::limits::room_below;
use std::alloc::AllocError;
use tables::module::{ImportRecord, Module, ModuleFlags, Span};
use tables::table::Table;

// Each of these adds one thing, or leaves all as it was.

pub(crate) fn push_module(
    table: &mut Table,
    flags: ModuleFlags,
    exec_order: u32,
    id: &[u8],
) -> Result<(), AllocError>
    requires { length table.old.modules.items < 512 }
    ensures panel { panel_of table.new ≡ (if is_ok result then with_module (new_module flags exec_order id.now) (panel_of table.old) else panel_of table.old) }
    ensures len { length table.new.modules.items ≡ length table.old.modules.items + (if is_ok result then 1 else 0) }
{
    let start = table.ids.len();
    let first = table.records.len();
    table.modules.reserve(1)?;
    table.ids.extend_from_slice(id)?;
    let end = table.ids.len();
    table.modules.push_reserved(Module {
        external: flags.external,
        json: flags.json,
        order_sensitive: flags.order_sensitive,
        wrap_kind: flags.wrap_kind,
        exec_order,
        id: Span { start, end },
        import_records: Span {
            start: first,
            end: first,
        },
    });
    Ok(())
}

// The record is of the latest module.
pub(crate) fn push_record(table: &mut Table, record: ImportRecord) -> Result<(), AllocError>
    requires latest { 0 < length table.old.modules.items }
    requires room { length table.old.records.items < 8192 }
    ensures panel { panel_of table.new ≡ (if is_ok result then with_import (import_of «record») (panel_of table.old) else panel_of table.old) }
    ensures len { length table.new.modules.items ≡ length table.old.modules.items }
{
    let last = table.modules.len() - 1;
    table.records.push(record)?;
    let end = table.records.len();
    table.modules[last].import_records.end = end;
    Ok(())
}

// One thing more at a list's end, if it keeps a limit.
pub(crate) fn push_below<T: Drop>(
    limit: usize,
    list: &mut Vec<T>,
    item: T,
) -> Result<(), BuildError>
    ensures { Answered (cond (nat_lt (length list.old.items) limit) None (Some Limit)) list.old.items (list.old.items ++ item ∷ []) result list.new.items }
{
    room_below(limit, list.len())?;
    list.push(item)?;
    Ok(())
}
