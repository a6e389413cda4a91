use exports::export::{BuildError, Export};
use plans::plan::Plan;
use std::alloc::Global;
use std::test::Fail;
use stores::layout::Layout;
use stores::lent::LentStore;
use stores::store::DependencyStore;
use tables::index::ModuleIdx;
use tables::module::{
    ChunkModulesOrderBy, EntryPoint, EntryPointKind, ModuleFlags, Options, WrapKind,
};

// A module of which only two flags matter here.
fn flags(external: bool, included: bool) -> ModuleFlags {
    ModuleFlags {
        external,
        included,
        json: false,
        order_sensitive: false,
        wrap_kind: WrapKind::None,
    }
}

// A panel of so many modules, with an entry on each of `starts`. The runtime module 0 is excluded and the others are included; at most one is external.
pub(crate) fn panel(
    heap: Global,
    count: usize,
    starts: &[u16],
    external: Option<usize>,
) -> Result<Export, BuildError> {
    let options = Options {
        code_splitting: true,
        chunk_modules_order: ChunkModulesOrderBy::ExecOrder,
        runtime_module: ModuleIdx(0),
    };
    let mut export = Export::new(heap, options);
    for m in 0..count {
        export.add_module(flags(external == Some(m), m > 0), 0, b"m")?;
    }
    for start in starts {
        let entry = EntryPoint {
            module: ModuleIdx(*start),
            kind: EntryPointKind::UserDefined,
        };
        export.add_entry(entry)?;
    }
    Ok(export)
}

// An empty store of as many modules as the memory has room for.
pub(crate) fn lent<'a, L: Layout>(memory: &'a mut [L::Cell]) -> Result<LentStore<'a, L>, Fail> {
    let size = memory.len().checked_div(L::MEMORY_PER_MODULE).unwrap_or(0);
    match LentStore::create(size, memory) {
        Ok(store) => Ok(store),
        Err(_) => Err(Fail::new("store refused")),
    }
}

// A plan over a store, of a panel of as many modules.
pub(crate) fn planned<S: DependencyStore + Drop>(
    heap: Global,
    starts: &[u16],
    external: Option<usize>,
    store: S,
) -> Result<Plan<S>, Fail> {
    let Ok(export) = panel(heap, store.size(), starts, external) else {
        return Err(Fail::new("panel refused"));
    };
    Plan::create(heap, export, store).map_err(|_| Fail::new("plan refused"))
}
