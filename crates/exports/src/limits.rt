ghost use Rattle.std.specs.Prelude.{◌≡◌, cond, length, Some, None, nat_lt};
ghost use Rattle.std.specs.Result.{result_err};
ghost use Rattle.tables.specs.declared.refusal.Refusal.TheVariants.{Limit};
ghost use Rattle.exports.specs.Limits.{module_room, import_room};

use tables::refusal::Refusal;
use tables::table::Table;

pub(crate) const MODULE_LIMIT: usize = 512;

pub(crate) const ID_LIMIT: usize = 200;

pub(crate) const ID_BYTES_LIMIT: usize = 32768;

pub(crate) const IMPORT_RECORD_LIMIT: usize = 8192;

pub(crate) const ENTRY_LIMIT: usize = 64;

pub(crate) const LISTED_LIMIT: usize = 512;

// Whether one thing more keeps a limit.
pub(crate) fn room_below(limit: usize, count: usize) -> Result<(), Refusal>
    ensures { result_err result ≡ cond (nat_lt count limit) None (Some Limit) }
{
    if count < limit {
        Ok(())
    } else {
        Err(Refusal::Limit)
    }
}

// Whether one module more, with this id, keeps the limits.
pub(crate) fn room_for_module(table: &Table, id: &[u8]) -> Result<(), Refusal>
    ensures { result_err result ≡ module_room (length table.now.modules.items) (length table.now.ids.items) (length id.now) }
{
    let len = id.len();
    if len < 1 || len > ID_LIMIT || table.ids.len() > ID_BYTES_LIMIT - len {
        return Err(Refusal::Limit);
    }
    room_below(MODULE_LIMIT, table.len())
}

// Whether one record more, of the latest module, keeps the limits.
pub(crate) fn room_for_record(table: &Table) -> Result<(), Refusal>
    ensures { result_err result ≡ import_room (length table.now.modules.items) (length table.now.records.items) }
{
    if table.modules.is_empty() {
        return Err(Refusal::OutOfStage);
    }
    room_below(IMPORT_RECORD_LIMIT, table.records.len())
}
