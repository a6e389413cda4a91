use crate::samples::{lent, panel, planned};
use crate::steps::{agrees, exclude, include, link, unlink};
use exports::export::BuildError;
use plans::plan::Plan;
use rows::Row;
use squares::Square;
use std::alloc::Global;
use std::process::Abort;
use std::test::Fail;
use stores::store::DependencyStore;
use tables::index::ModuleIdx;

// The number that refuses a plan over a store of 4 modules that holds the pair (1, 2), then how many modules and entries the export has that comes back, and whether the store has its pair.
fn rejected<S: DependencyStore + Drop>(
    rt: &impl Abort,
    heap: Global,
    count: usize,
    starts: &[u16],
    external: Option<usize>,
    mut store: S,
) -> Result<(Option<u8>, usize, usize, bool), Fail> {
    assert!(rt; store.link(ModuleIdx(1), ModuleIdx(2)).is_ok());
    let Ok(export) = panel(heap, count, starts, external) else {
        return Err(Fail::new("panel refused"));
    };
    let Err(back) = Plan::create(heap, export, store) else {
        return Err(Fail::new("accepted"));
    };
    let number = match back.why {
        BuildError::Refused(why) => Some(u8::from(why)),
        BuildError::OutOfMemory => None,
    };
    let modules = back.export.table.len();
    let entries = back.export.table.entries.len();
    let kept = back.store.size() == 4 && back.store.has(ModuleIdx(1), ModuleIdx(2));
    Ok((number, modules, entries, kept))
}

// A plan of so many modules is refused by this number over each store of 4 modules, and the export and the store come back.
fn is_rejected(
    rt: &impl Abort,
    heap: Global,
    number: u8,
    count: usize,
    starts: &[u16],
    external: Option<usize>,
) -> Result<(), Fail> {
    let told = (Some(number), count, starts.len(), true);
    let over_rows = rejected(
        rt,
        heap,
        count,
        starts,
        external,
        lent::<Row>(&mut [0; 260])?,
    )?;
    assert_eq!(rt; over_rows, told);
    let over_square = rejected(
        rt,
        heap,
        count,
        starts,
        external,
        lent::<Square>(&mut [0; 32])?,
    )?;
    assert_eq!(rt; over_square, told);
    Ok(())
}

#[test]
fn a_plan_is_refused(rt: HostRuntime) -> Result<(), Fail> {
    let heap = rt.alloc();
    is_rejected(&rt, heap, 5, 0, &[], None)?;
    is_rejected(&rt, heap, 6, 4, &[1, 4], None)?;
    is_rejected(&rt, heap, 7, 4, &[1], Some(0))?;
    is_rejected(&rt, heap, 8, 4, &[1, 2, 1], None)?;
    is_rejected(&rt, heap, 9, 3, &[1], None)?;
    is_rejected(&rt, heap, 9, 5, &[1], None)
}

// The pairs that the store has before are those of the plan, and no edit came before.
fn takes_over<S: DependencyStore + Drop>(
    rt: &impl Abort,
    heap: Global,
    mut store: S,
) -> Result<(), Fail> {
    assert!(rt; store.link(ModuleIdx(1), ModuleIdx(3)).is_ok());
    assert!(rt; store.link(ModuleIdx(3), ModuleIdx(2)).is_ok());
    let plan = planned(heap, &[1], None, store)?;
    assert_eq!(rt; agrees(rt, &plan, &[0, 1, 1, 1], &[0, 1, 1, 1]), 0);
    Ok(())
}

#[test]
fn a_store_may_have_pairs_before(rt: HostRuntime) -> Result<(), Fail> {
    takes_over(&rt, rt.alloc(), lent::<Row>(&mut [0; 260])?)?;
    takes_over(&rt, rt.alloc(), lent::<Square>(&mut [0; 32])?)
}

// A list of edits, two of which are refused, leaves what they leave one by one; the export and the store come out with what they changed.
fn performs<S: DependencyStore + Drop>(
    rt: &impl Abort,
    heap: Global,
    store: S,
) -> Result<(), Fail> {
    let mut plan = planned(heap, &[1], None, store)?;
    let first = [link(1, 2), link(1, 2), link(2, 3), link(1, 3)];
    plan.perform(&first);
    let second = [unlink(2, 3), exclude(3), include(4)];
    plan.perform(&second);
    assert_eq!(rt; agrees(rt, &plan, &[0, 1, 1, 1], &[0, 1, 1, 0]), 1);
    let (export, store) = plan.into_parts();
    let marks = (
        export.included.contains(ModuleIdx(2)),
        export.included.contains(ModuleIdx(3)),
    );
    assert_eq!(rt; marks, (true, false));
    let pairs = (
        store.has(ModuleIdx(1), ModuleIdx(3)),
        store.has(ModuleIdx(2), ModuleIdx(3)),
    );
    assert_eq!(rt; pairs, (true, false));
    Ok(())
}

#[test]
fn a_list_of_edits_is_performed(rt: HostRuntime) -> Result<(), Fail> {
    performs(&rt, rt.alloc(), lent::<Row>(&mut [0; 260])?)?;
    performs(&rt, rt.alloc(), lent::<Square>(&mut [0; 32])?)
}
