ghost use Rattle.std.specs.Prelude.{◌≡◌, ◌<◌};
ghost use Rattle.tables.specs.Kinds.{bit, wrap_of, import_kind, entry_kind, flags_of, chunk_number, given};

use crate::module::{ChunkKind, EntryPointKind, ImportKind, ModuleFlags, WrapKind};
use crate::refusal::Refusal;

// The numbers that stand for kinds and flags in an export, of which any other is refused, and for kinds of chunks in an answer.

impl TryFrom<u16> for WrapKind {
    type Error = Refusal;

    ghost try_from_gives = { λ n r. r ≡ given (wrap_of n) };

    fn try_from(n: u16) -> Result<WrapKind, Refusal> {
        match n {
            0 => Ok(WrapKind::None),
            1 => Ok(WrapKind::Cjs),
            2 => Ok(WrapKind::Esm),
            _ => Err(Refusal::FieldValue),
        }
    }
}

impl TryFrom<u16> for ImportKind {
    type Error = Refusal;

    ghost try_from_gives = { λ n r. r ≡ given (import_kind n) };

    fn try_from(n: u16) -> Result<ImportKind, Refusal> {
        match n {
            0 => Ok(ImportKind::Other),
            1 => Ok(ImportKind::Import),
            _ => Err(Refusal::FieldValue),
        }
    }
}

impl TryFrom<u16> for EntryPointKind {
    type Error = Refusal;

    ghost try_from_gives = { λ n r. r ≡ given (entry_kind n) };

    fn try_from(n: u16) -> Result<EntryPointKind, Refusal> {
        match n {
            0 => Ok(EntryPointKind::UserDefined),
            1 => Ok(EntryPointKind::EmittedUserDefined),
            2 => Ok(EntryPointKind::DynamicImport),
            _ => Err(Refusal::FieldValue),
        }
    }
}

impl TryFrom<u16> for ModuleFlags {
    type Error = Refusal;

    ghost try_from_gives = { λ n r. r ≡ given (flags_of n) };

    fn try_from(n: u16) -> Result<ModuleFlags, Refusal> {
        Ok(ModuleFlags {
            external: has_bit(n, 0),
            included: has_bit(n, 1),
            json: has_bit(n, 2),
            order_sensitive: has_bit(n, 3),
            wrap_kind: WrapKind::try_from(n / 16)?,
        })
    }
}

impl From<ChunkKind> for u8 {
    ghost from_gives = { λ kind r. r ≡ chunk_number kind };

    fn from(kind: ChunkKind) -> u8 {
        kind as u8
    }
}

// Whether bit k is set.
fn has_bit(n: u16, k: u16) -> bool
    requires { k < 16 }
    ensures { result ≡ bit k n }
{
    (n >> k) % 2 == 1
}
