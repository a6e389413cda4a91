ghost use Rattle.std.specs.Prelude.{◌≡◌};

// Three kinds of number, each a type of its own, so that none is passed for another.

// The number of a module in its table, from 0.
#[derive(Clone, Copy, Debug, PartialEq, Eq, PartialOrd, Ord, Hash)]
pub struct ModuleIdx(pub u16);

// The number of a chunk in its drawing, from 0.
#[derive(Clone, Copy, Debug, PartialEq, Eq, PartialOrd, Ord, Hash)]
pub struct ChunkIdx(pub u16);

// The number of an import record among those of its module, from 0.
#[derive(Clone, Copy, Debug, PartialEq, Eq, PartialOrd, Ord, Hash)]
pub struct ImportRecordIdx(pub u16);

impl From<ModuleIdx> for usize {
    ghost from_gives = { λ m r. r ≡ m.0 };

    fn from(m: ModuleIdx) -> usize {
        m.0 as usize
    }
}
