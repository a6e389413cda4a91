use crate::samples::{lent, planned};
use crate::steps::{Step, exclude, go, include, link, told, unlink};
use rows::Row;
use squares::Square;
use std::alloc::Global;
use std::process::Abort;
use std::test::Fail;
use stores::store::DependencyStore;
use tables::index::ModuleIdx;

// Modules 1 and 2 load each other, and 2 loads 3.
#[test]
fn a_cycle_with_a_tail(rt: HostRuntime) -> Result<(), Fail> {
    let steps = [
        Step(link(1, 2), Ok([0, 1, 1, 0])),
        Step(link(2, 1), Ok([0, 1, 1, 0])),
        Step(link(2, 3), Ok([0, 1, 1, 1])),
        Step(exclude(2), Ok([0, 1, 0, 0])),
        Step(include(2), Ok([0, 1, 1, 1])),
    ];
    go(&rt, rt.alloc(), &[1], None, [0, 1, 0, 0], &steps)
}

// Entries 0 and 1 are of module 1, entry 2 is of module 2; a pair of a module with itself moves nothing.
#[test]
fn several_entries_reach_a_module(rt: HostRuntime) -> Result<(), Fail> {
    let steps = [
        Step(link(1, 1), Ok([0, 3, 4, 0])),
        Step(link(1, 2), Ok([0, 3, 7, 0])),
        Step(unlink(1, 1), Ok([0, 3, 7, 0])),
        Step(exclude(1), Ok([0, 0, 4, 0])),
    ];
    go(&rt, rt.alloc(), &[1, 1, 2], None, [0, 3, 4, 0], &steps)
}

// Module 2, between 1 and 3, is external: no mark opens it.
#[test]
fn an_external_module_stops_paths(rt: HostRuntime) -> Result<(), Fail> {
    let steps = [
        Step(link(1, 2), Ok([0, 1, 0, 0])),
        Step(link(2, 3), Ok([0, 1, 0, 0])),
        Step(include(2), Ok([0, 1, 0, 0])),
        Step(link(1, 3), Ok([0, 1, 0, 1])),
    ];
    go(&rt, rt.alloc(), &[1], Some(2), [0, 1, 0, 0], &steps)
}

// Each refused edit leaves what the first one did; to include again is accepted and moves nothing.
#[test]
fn a_refusal_changes_nothing(rt: HostRuntime) -> Result<(), Fail> {
    let steps = [
        Step(link(1, 2), Ok([0, 1, 1, 0])),
        Step(link(4, 2), Err(6)),
        Step(link(1, 4), Err(6)),
        Step(link(1, 2), Err(10)),
        Step(unlink(2, 4), Err(6)),
        Step(unlink(2, 1), Err(12)),
        Step(include(4), Err(6)),
        Step(exclude(65535), Err(6)),
        Step(include(2), Ok([0, 1, 1, 0])),
    ];
    go(&rt, rt.alloc(), &[1], None, [0, 1, 0, 0], &steps)
}

// 64 dependencies are accepted, and a 65th is refused and leaves what the 64th did.
fn is_filled<S: DependencyStore + Drop>(
    rt: &impl Abort,
    heap: Global,
    store: S,
) -> Result<(), Fail> {
    let mut plan = planned(heap, &[1], None, store)?;
    for d in 2..66u16 {
        assert_eq!(rt; told(&mut plan, link(1, d)), Ok(1));
    }
    assert_eq!(rt; told(&mut plan, link(1, 66)), Err(11));
    assert_eq!(rt; plan.moved().len(), 1);
    let last = ModuleIdx(65);
    assert_eq!(rt; u64::from(plan.set_of(last)), 1);
    assert_eq!(rt; u64::from(plan.earlier_set_of(last)), 0);
    Ok(())
}

#[test]
fn a_module_has_64_dependencies(rt: HostRuntime) -> Result<(), Fail> {
    is_filled(&rt, rt.alloc(), lent::<Row>(&mut [0; 4355])?)?;
    is_filled(&rt, rt.alloc(), lent::<Square>(&mut [0; 536])?)
}
