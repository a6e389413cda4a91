use tables::index::ModuleIdx;

// An edit of a store's pairs.
#[derive(Clone, Copy)]
pub enum Edit {
    Link(ModuleIdx, ModuleIdx),
    Unlink(ModuleIdx, ModuleIdx),
}
