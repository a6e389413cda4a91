ghost use Rattle.std.specs.Prelude.{◌≡◌, ◌<◌, map, length, nat_eq};
ghost use Rattle.std.specs.List.{list_any};
ghost use Rattle.exports.specs.Beyond.{some_beyond};
ghost use Rattle.exports.specs.Check.{apart_at, some_apart, verdict, Judged};
ghost use Rattle.tables.specs.View.{panel_of};

use crate::names::{NamesModule, any_beyond};
use tables::index::ModuleIdx;
use tables::module::EntryPoint;
use tables::refusal::Refusal;
use tables::table::Table;

// Whether a finished table may be used, or the smallest refusal of it. Apart from `Export::check`, so that a wrong answer there is refused for the promise.
pub(crate) fn judge(table: &Table) -> Result<(), Refusal>
    ensures verdict { result ≡ verdict (panel_of table.now) }
    ensures judged { Judged (panel_of table.now) result }
{
    if table.len() == 0 {
        return Err(Refusal::Limit);
    }
    if names_beyond(table) {
        return Err(Refusal::ModuleOutOfRange);
    }
    if table.is_external(table.options.runtime_module) {
        return Err(Refusal::ExternalRuntime);
    }
    if any_apart(&table.entries) {
        return Err(Refusal::EntryApart);
    }
    Ok(())
}

// Whether some number in the table is of no module.
fn names_beyond(table: &Table) -> bool
    ensures { result ≡ some_beyond (length table.now.modules.items) table.now.options table.now.entries.items table.now.listed.items table.now.records.items }
{
    let count = table.modules.len();
    table.options.runtime_module.is_beyond(count)
        || any_beyond(count, &table.entries)
        || any_beyond(count, &table.listed)
        || any_beyond(count, &table.records)
}

// Whether some entry is of a module.
fn any_of(entries: &[EntryPoint], m: ModuleIdx) -> bool
    ensures { result ≡ list_any (λ e. nat_eq e.«module».0 m.0) entries.now }
{
    entries.iter().any(|entry| entry.module == m)
}

// Whether an entry stands apart from an earlier entry of its module.
fn is_apart(entries: &[EntryPoint], e: usize) -> bool
    requires { e < length entries.now }
    ensures { result ≡ apart_at (map (λ e. e.«module».0) entries.now) e }
{
    let before = entries[e.saturating_sub(1)].module;
    let module = entries[e].module;
    if before == module {
        return false;
    }
    any_of(&entries[..e], module)
}

fn any_apart(entries: &[EntryPoint]) -> bool
    ensures { result ≡ some_apart (map (λ e. e.«module».0) entries.now) }
{
    (0..entries.len()).any(|e| is_apart(entries, e))
}
