// What a table holds: modules, import records, entries and options, by the names of the crate.
use crate::index::ModuleIdx;

// How a module is wrapped: not at all, as CommonJS, or as a lazily started ES module.
#[derive(Clone, Copy, Debug, PartialEq, Eq)]
pub enum WrapKind {
    None,
    Cjs,
    Esm,
}

// A static import, or any other kind.
#[derive(Clone, Copy, Debug, PartialEq, Eq)]
pub enum ImportKind {
    Other,
    Import,
}

#[derive(Clone, Copy, Debug, PartialEq, Eq)]
pub enum EntryPointKind {
    UserDefined,
    EmittedUserDefined,
    DynamicImport,
}

// The order of the modules in a chunk.
#[derive(Clone, Copy, Debug, PartialEq, Eq)]
pub enum ChunkModulesOrderBy {
    ExecOrder,
    ModuleId,
}

// What an export says of a module by flags. The included mark alone can change later.
#[derive(Clone, Copy, Debug, PartialEq, Eq)]
pub struct ModuleFlags {
    pub external: bool,
    pub included: bool,
    pub json: bool,
    pub order_sensitive: bool,
    pub wrap_kind: WrapKind,
}

// The elements from `start` on and before `end` of a list that all modules share.
#[derive(Clone, Copy, Debug, PartialEq, Eq)]
pub struct Span {
    pub start: usize,
    pub end: usize,
}

#[derive(Clone, Copy, Debug, PartialEq, Eq)]
pub struct Module {
    pub external: bool,
    pub json: bool,
    pub order_sensitive: bool,
    pub wrap_kind: WrapKind,
    pub exec_order: u32,
    pub id: Span,
    pub import_records: Span,
}

#[derive(Clone, Copy, Debug, PartialEq, Eq)]
pub struct ImportRecord {
    pub kind: ImportKind,
    pub resolved_module: Option<ModuleIdx>,
}

#[derive(Clone, Copy, Debug, PartialEq, Eq)]
pub struct EntryPoint {
    pub module: ModuleIdx,
    pub kind: EntryPointKind,
}

#[derive(Clone, Copy, Debug, PartialEq, Eq)]
pub struct Options {
    pub code_splitting: bool,
    pub chunk_modules_order: ChunkModulesOrderBy,
    pub runtime_module: ModuleIdx,
}

// What a chunk is made for: modules that the same entries reach, an entry, or the extracted runtime.
#[derive(Clone, Copy, Debug, PartialEq, Eq)]
pub enum ChunkKind {
    Common = 0,
    Entry = 1,
    Runtime = 2,
}
