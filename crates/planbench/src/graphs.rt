use exports::export::{BuildError, Export};
use std::alloc::Global;
use stores::store::DependencyStore;
use tables::index::ModuleIdx;
use tables::module::{
    ChunkModulesOrderBy, EntryPoint, EntryPointKind, ModuleFlags, Options, WrapKind,
};

// Which module loads which. A module has as many dependencies as an eighth of the modules, 64 of 512, or fewer.
#[derive(Clone, Copy)]
pub(crate) enum Shape {
    // Each module loads those that come next, and after the last comes the first: every entry reaches every module, so an edit concerns all entries.
    Ring,
    // In each of eight blocks a module loads all later ones of its block: an entry reaches the rest of its block, so an edit concerns the entries of one block at most.
    Blocks,
}

// A panel of so many modules, all included, with an entry on each eighth. The tests of plans make their own, since neither uses the other.
pub(crate) fn panel(heap: Global, modules: u16) -> Result<Export, BuildError> {
    let options = Options {
        code_splitting: true,
        chunk_modules_order: ChunkModulesOrderBy::ExecOrder,
        runtime_module: ModuleIdx(0),
    };
    let flags = ModuleFlags {
        external: false,
        included: true,
        json: false,
        order_sensitive: false,
        wrap_kind: WrapKind::None,
    };
    let mut export = Export::new(heap, options);
    for _ in 0..modules {
        export.add_module(flags, 0, b"m")?;
    }
    for e in 0..modules / 8 {
        let entry = EntryPoint {
            module: ModuleIdx(8 * e),
            kind: EntryPointKind::UserDefined,
        };
        export.add_entry(entry)?;
    }
    Ok(export)
}

// The module that comes `k` after `m`, if `m` loads it.
fn loaded(shape: Shape, modules: u16, m: u16, k: u16) -> Option<u16> {
    let d = m.wrapping_add(k);
    let block = (modules / 8).max(1);
    match shape {
        Shape::Ring => {
            if d < modules {
                Some(d)
            } else {
                Some(d.wrapping_sub(modules))
            }
        }
        Shape::Blocks => { (d / block == m / block).then_some(d) }
    }
}

// Puts the pairs of a shape into a store, and answers how many it accepts.
pub(crate) fn put_pairs<S: DependencyStore>(store: &mut S, shape: Shape, modules: u16) -> u32 {
    let mut pairs: u32 = 0;
    for m in 0..modules {
        for k in 0..modules / 8 {
            if let Some(d) = loaded(shape, modules, m, k.wrapping_add(1))
                && store.link(ModuleIdx(m), ModuleIdx(d)).is_ok()
            {
                pairs = pairs.saturating_add(1);
            }
        }
    }
    pairs
}
