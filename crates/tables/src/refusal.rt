ghost use Rattle.std.specs.Prelude.{◌≡◌};
ghost use Rattle.tables.specs.Refusals.{number_of};

// Why a line or a call is refused, with the number that is told of it. docs/REFUSALS.md gives each in full.
#[derive(Clone, Copy, Debug, PartialEq, Eq)]
pub enum Refusal {
    // a line is no line of digits
    MalformedLine = 1,
    // no frame has this letter and length
    UnknownFrame = 2,
    // a frame comes out of its stage
    OutOfStage = 3,
    // a field has a value that is not given
    FieldValue = 4,
    // a limit is not kept
    Limit = 5,
    // a module number is not below the number of modules
    ModuleOutOfRange = 6,
    // the runtime module is external
    ExternalRuntime = 7,
    // an entry stands apart from an earlier entry of its module
    EntryApart = 8,
    // the store's size is not the number of modules
    StoreSize = 9,
    // the pair to link is there already
    PairPresent = 10,
    // the module has as many dependencies as it may
    DependencyLimit = 11,
    // the pair to unlink is not there
    PairAbsent = 12,
    // too few rows or roll elements to draw into
    DrawingRoom = 13,
    // a module to be placed has an empty set
    UnreachedModule = 14,
    // a chunk number, row or roll points outside
    ChunkOutOfRange = 15,
    // too few places for moves, or too little memory for a store
    BufferRoom = 16,
}

impl From<Refusal> for u8 {
    ghost from_gives = { λ why r. r ≡ number_of why };

    fn from(why: Refusal) -> u8 {
        why as u8
    }
}
