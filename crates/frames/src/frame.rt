use tables::index::ModuleIdx;
use tables::module::{EntryPoint, ImportRecord, ModuleFlags, Options};

// What a line says. A module's id is the part of the line that holds its digits, beside its place there.
#[derive(Clone, Copy)]
pub enum Frame<'a> {
    // G
    Options(Options),
    // M
    Module {
        flags: ModuleFlags,
        exec_order: u32,
        id_digits: &'a [u8],
        place: usize,
    },
    // R
    ImportRecord(ImportRecord),
    // S
    Listed(ModuleIdx),
    // E
    Entry(EntryPoint),
    // L
    Link(ModuleIdx, ModuleIdx),
    // U
    Unlink(ModuleIdx, ModuleIdx),
    // I
    Include(ModuleIdx),
    // X
    Exclude(ModuleIdx),
    // D
    Draw,
}
