use crate::tallies::Tally;
use plans::plan::Plan;
use std::io;
use std::time::Instant;
use stores::store::DependencyStore;
use tables::index::ModuleIdx;
use tables::refusal::Refusal;

// So many modules, each so far from the one before.
#[derive(Clone, Copy)]
pub(crate) struct Spread {
    pub(crate) count: u16,
    pub(crate) apart: u16,
}

// Makes an edit at each module of a spread; the edit is given the module and the one that comes next.
fn edits<S: DependencyStore, F: Fn(&mut Plan<S>, ModuleIdx, ModuleIdx) -> Result<usize, Refusal>>(
    plan: &mut Plan<S>,
    spread: Spread,
    edit: &F,
) -> Tally
    requires { F.IsAlwaysCallable edit.now }
{
    let mut tally = Tally::default();
    for i in 0..spread.count {
        let m = i.wrapping_mul(spread.apart);
        if let Ok(moved) = edit(plan, ModuleIdx(m), ModuleIdx(m.wrapping_add(1))) {
            tally.accepted = tally.accepted.saturating_add(1);
            tally.moved = tally
                .moved
                .saturating_add(u32::try_from(moved).unwrap_or(0));
        }
    }
    tally
}

pub(crate) fn batch<
    S: DependencyStore,
    F: Fn(&mut Plan<S>, ModuleIdx, ModuleIdx) -> Result<usize, Refusal>,
>(rt: &HostRuntime, plan: &mut Plan<S>, spread: Spread, edit: &F) -> io::Result<Tally>
    requires { F.IsAlwaysCallable edit.now }
{
    let start = Instant::now(rt)?;
    let mut tally = edits(plan, spread, edit);
    tally.time = start.elapsed(rt)?;
    Ok(tally)
}
