use exports::export::{BuildError, Export};
use reach::data::PlanData;
use stores::store::DependencyStore;
use tables::index::ModuleIdx;

mod create;
pub mod edits;
mod making;
mod perform;
mod read;

// A plan over any dependency store.
#[derive(Drop)]
pub struct Plan<S: DependencyStore> {
    store: S,
    data: PlanData,
}

// Why no plan was made, with the export and the store as they were.
#[derive(Drop)]
pub struct Rejected<S> {
    pub why: BuildError,
    pub export: Export,
    pub store: S,
}

// An edit to make: beside the edits of a store those of marks, which no store knows.
#[derive(Clone, Copy)]
pub enum Edit {
    Link(ModuleIdx, ModuleIdx),
    Unlink(ModuleIdx, ModuleIdx),
    Include(ModuleIdx),
    Exclude(ModuleIdx),
}
