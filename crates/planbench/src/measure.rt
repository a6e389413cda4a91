use crate::batches::{Spread, batch};
use crate::graphs::{Shape, panel, put_pairs};
use crate::tallies::{Measured, Tally};
use anyhow::anyhow;
use plans::plan::Plan;
use std::io;
use std::time::Instant;
use stores::store::DependencyStore;

// A panel to make, and how often so many edits of each kind.
#[derive(Clone, Copy)]
pub(crate) struct Job {
    pub(crate) shape: Shape,
    pub(crate) modules: u16,
    pub(crate) edits: u16,
    pub(crate) rounds: u16,
}

// Unlinks pairs, excludes the modules that they led to, and again, then links and includes all as it was. So an edit of each kind comes where it concerns as many entries as it can; to exclude again concerns none.
fn round<S: DependencyStore>(
    rt: &HostRuntime,
    plan: &mut Plan<S>,
    job: Job,
    sum: &mut Measured,
) -> io::Result<()> {
    let spread = Spread {
        count: job.edits,
        apart: job.modules / job.edits.max(1),
    };
    sum.unlink += batch(rt, plan, spread, &|plan, m, next| plan.unlink(m, next))?;
    sum.exclude += batch(rt, plan, spread, &|plan, _, next| plan.exclude(next))?;
    sum.again += batch(rt, plan, spread, &|plan, _, next| plan.exclude(next))?;
    sum.link += batch(rt, plan, spread, &|plan, m, next| plan.link(m, next))?;
    sum.include += batch(rt, plan, spread, &|plan, _, next| plan.include(next))?;
    Ok(())
}

pub(crate) fn measured<S: DependencyStore + Drop>(
    rt: &HostRuntime,
    job: Job,
    mut store: S,
) -> anyhow::Result<Measured> {
    let pairs = put_pairs(&mut store, job.shape, job.modules);
    let Ok(export) = panel(rt.alloc(), job.modules) else {
        return Err(anyhow!("the panel is refused"));
    };
    let start = Instant::now(rt)?;
    let Ok(mut plan) = Plan::create(rt.alloc(), export, store) else {
        return Err(anyhow!("the plan is refused"));
    };
    let mut sum = Measured {
        pairs,
        creation: start.elapsed(rt)?,
        unlink: Tally::default(),
        exclude: Tally::default(),
        again: Tally::default(),
        link: Tally::default(),
        include: Tally::default(),
    };
    for _ in 0..job.rounds {
        round(rt, &mut plan, job, &mut sum)?;
    }
    Ok(sum)
}
