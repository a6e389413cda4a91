use crate::samples::{lent, planned};
use plans::plan::{Edit, Plan};
use rows::Row;
use squares::Square;
use std::alloc::Global;
use std::process::Abort;
use std::test::Fail;
use stores::store::DependencyStore;
use tables::index::ModuleIdx;

// An edit, and the sets of four modules after it, as numbers with bit e for entry e, or the number of its refusal.
#[derive(Clone, Copy)]
pub(crate) struct Step(pub(crate) Edit, pub(crate) Result<[u64; 4], u8>);

pub(crate) fn link(m: u16, d: u16) -> Edit {
    Edit::Link(ModuleIdx(m), ModuleIdx(d))
}

pub(crate) fn unlink(m: u16, d: u16) -> Edit {
    Edit::Unlink(ModuleIdx(m), ModuleIdx(d))
}

pub(crate) fn include(m: u16) -> Edit {
    Edit::Include(ModuleIdx(m))
}

pub(crate) fn exclude(m: u16) -> Edit {
    Edit::Exclude(ModuleIdx(m))
}

// How many modules moved, or the number of the refusal.
pub(crate) fn told<S: DependencyStore>(plan: &mut Plan<S>, edit: Edit) -> Result<usize, u8> {
    plan.edit(edit).map_err(u8::from)
}

// The sets of the first modules are `after` and were `before`, and those that differ are the modules that moved; answers how many.
pub(crate) fn agrees<S: DependencyStore>(
    rt: &impl Abort,
    plan: &Plan<S>,
    before: &[u64],
    after: &[u64],
) -> usize {
    let mut moved = plan.moved().iter().copied();
    for (m, (before, after)) in (0..512u16).zip(before.iter().zip(after)) {
        let module = ModuleIdx(m);
        assert_eq!(rt; u64::from(plan.earlier_set_of(module)), *before);
        assert_eq!(rt; u64::from(plan.set_of(module)), *after);
        if before != after {
            assert_eq!(rt; moved.next(), Some(module));
        }
    }
    assert_eq!(rt; moved.next(), None);
    plan.moved().len()
}

// Makes the edits in turn on a panel of four modules whose sets are `first`. A refused edit leaves what the last accepted one did.
fn goes<S: DependencyStore + Drop>(
    rt: &impl Abort,
    mut plan: Plan<S>,
    first: [u64; 4],
    steps: &[Step],
) {
    let mut before = first;
    let mut after = first;
    for step in steps {
        let answer = told(&mut plan, step.0);
        if let Ok(sets) = step.1 {
            before = after;
            after = sets;
        }
        let differing = agrees(rt, &plan, &before, &after);
        assert_eq!(rt; answer, step.1.map(|_| differing));
    }
}

pub(crate) fn go(
    rt: &impl Abort,
    heap: Global,
    starts: &[u16],
    external: Option<usize>,
    first: [u64; 4],
    steps: &[Step],
) -> Result<(), Fail> {
    let mut numbers = [0u16; 260];
    let over_rows = planned(heap, starts, external, lent::<Row>(&mut numbers)?)?;
    goes(rt, over_rows, first, steps);
    let mut words = [0u64; 32];
    let over_square = planned(heap, starts, external, lent::<Square>(&mut words)?)?;
    goes(rt, over_square, first, steps);
    Ok(())
}
