use exports::export::Export;
use frames::stage::Reader;
use std::alloc::Global;

// The calls that an export can ask for.
#[derive(Clone, Copy)]
pub enum Call {
    Link,
    Unlink,
    Include,
    Exclude,
    Draw,
}

// How often each call came; a count stays at its largest value. A field for each, since the report names each.
#[derive(Clone, Copy, Default)]
pub struct CallCounts {
    pub link: u32,
    pub unlink: u32,
    pub include: u32,
    pub exclude: u32,
    pub draw: u32,
}

// An export as far as its lines are read.
#[derive(Drop)]
pub struct Intake {
    pub heap: Global,
    pub reader: Reader,
    pub export: Export,
    pub calls: CallCounts,
}
