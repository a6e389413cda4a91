ghost use Rattle.std.specs.Prelude.{◌≡◌, length};
ghost use Rattle.exports.specs.declared.export.BuildError.TheVariants.{Refused, OutOfMemory};

use std::alloc::{AllocError, AllocFailed};
use tables::included::Included;
use tables::refusal::Refusal;
use tables::table::Table;

// Why a step of building is not made: a rule refuses it, or memory is wanting.
#[derive(Clone, Copy, Debug, PartialEq, Eq)]
pub enum BuildError {
    Refused(Refusal),
    OutOfMemory,
}

impl From<Refusal> for BuildError {
    ghost from_gives = { λ why r. r ≡ Refused why };

    fn from(why: Refusal) -> BuildError {
        BuildError::Refused(why)
    }
}

impl From<AllocError> for BuildError {
    ghost from_gives = { λ _ r. r ≡ OutOfMemory };

    fn from(_e: AllocError) -> BuildError {
        BuildError::OutOfMemory
    }
}

impl<T: Drop> From<AllocFailed<T>> for BuildError {
    ghost from_gives = { λ _ r. r ≡ OutOfMemory };

    fn from(e: AllocFailed<T>) -> BuildError {
        BuildError::from(AllocError::from(e))
    }
}

// A panel export as it is read, step by step: the table, and a mark for each of its modules.
#[derive(Drop)]
pub struct Export {
    pub table: Table,
    pub included: Included,
    ghost marked: { length included.marks.items ≡ length table.modules.items },
}
