use crate::module::{ChunkModulesOrderBy, EntryPointKind, ImportKind, WrapKind};
use crate::refusal::Refusal;
use std::error::Error;
use std::fmt;

// Kinds and refusals in words, for a person.

impl fmt::Display for WrapKind {
    fn fmt<W: fmt::Write>(&self, f: &mut fmt::Formatter<W>) -> fmt::Result {
        f.write_str(match self {
            WrapKind::None => "not wrapped",
            WrapKind::Cjs => "wrapped as CommonJS",
            WrapKind::Esm => "wrapped as ES module",
        })
    }
}

impl fmt::Display for ImportKind {
    fn fmt<W: fmt::Write>(&self, f: &mut fmt::Formatter<W>) -> fmt::Result {
        f.write_str(match self {
            ImportKind::Import => "static import",
            ImportKind::Other => "other import",
        })
    }
}

impl fmt::Display for EntryPointKind {
    fn fmt<W: fmt::Write>(&self, f: &mut fmt::Formatter<W>) -> fmt::Result {
        f.write_str(match self {
            EntryPointKind::UserDefined => "user-defined",
            EntryPointKind::EmittedUserDefined => "emitted user-defined",
            EntryPointKind::DynamicImport => "dynamic import",
        })
    }
}

impl fmt::Display for ChunkModulesOrderBy {
    fn fmt<W: fmt::Write>(&self, f: &mut fmt::Formatter<W>) -> fmt::Result {
        f.write_str(match self {
            ChunkModulesOrderBy::ExecOrder => "execution order",
            ChunkModulesOrderBy::ModuleId => "module ids",
        })
    }
}

impl fmt::Display for Refusal {
    fn fmt<W: fmt::Write>(&self, f: &mut fmt::Formatter<W>) -> fmt::Result {
        f.write_str(match self {
            Refusal::MalformedLine =>
                "the line is empty, has an odd number of digits, more than 512 of them, or a byte other than 0 to 9 and A to F",
            Refusal::UnknownFrame => "no frame has this letter with this length",
            Refusal::OutOfStage =>
                "the frame comes out of turn: G first, then M, R, S and E, then the calls; an R needs an M before it",
            Refusal::FieldValue => "a field has a value that is not defined",
            Refusal::Limit =>
                "a limit is not kept: 1 to 512 modules, ids of 1 to 200 bytes and 32768 in all, 8192 records, 64 entries, 512 listed modules",
            Refusal::ModuleOutOfRange => "a module number is not below the number of modules",
            Refusal::ExternalRuntime => "the runtime module is external",
            Refusal::EntryApart => "an entry stands apart from an earlier entry of its module",
            Refusal::StoreSize => "the dependency store has another size than the table",
            Refusal::PairPresent => "the dependency to link is there already",
            Refusal::DependencyLimit => "the module has 64 dependencies already",
            Refusal::PairAbsent => "the dependency to unlink is not there",
            Refusal::DrawingRoom => "there are too few rows or roll elements to draw into",
            Refusal::UnreachedModule => "no entry reaches a module that is to be placed",
            Refusal::ChunkOutOfRange => "a chunk number, its row or its roll points outside",
            Refusal::BufferRoom =>
                "there are too few places for moves, or too little memory for a store",
        })
    }
}

impl Error for Refusal {}
