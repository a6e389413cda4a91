// How quick the edits of a plan are, over both stores. It makes a few edits on small panels and prints how many were accepted and how many modules moved; with the argument `time` it takes panels of 512 modules and prints how many edits it makes in a second.
#![tactic(auto)]

mod batches;
mod graphs;
mod measure;
mod tallies;

use anyhow::anyhow;
use graphs::Shape;
use measure::{Job, measured};
use rows::Row;
use squares::Square;
use std::env;
use stores::layout::Layout;
use stores::lent::LentStore;
use tallies::{Counts, Rates};

// Whether the first argument asks for times.
fn is_timed(rt: &HostRuntime) -> anyhow::Result<bool> {
    let mut args = env::args(rt)?;
    let _ = args.next();
    match args.next() {
        Some(word) => Ok(word.as_str() == "time"),
        None => Ok(false),
    }
}

// Measures a job over a store in this memory, and tells what was measured.
fn tell<L: Layout>(
    rt: &HostRuntime,
    timed: bool,
    name: &str,
    job: Job,
    memory: &mut [L::Cell],
) -> anyhow::Result<()> {
    let Ok(store) = LentStore::<L>::create(usize::from(job.modules), memory) else {
        return Err(anyhow!("the store is refused"));
    };
    let measured = measured(rt, job, store)?;
    if timed {
        print!(rt; "{name}: {}", Rates(&measured))?;
    } else {
        print!(rt; "{name}: {}", Counts(&measured))?;
    }
    Ok(())
}

fn run(rt: &HostRuntime) -> anyhow::Result<()> {
    let timed = is_timed(rt)?;
    let modules = if timed { 512 } else { 128 };
    let mut numbers = [0u16; 33280];
    let mut words = [0u64; 4096];
    let ring = Job {
        shape: Shape::Ring,
        modules,
        edits: 8,
        rounds: if timed { 2 } else { 1 },
    };
    tell::<Row>(rt, timed, "ring, rows", ring, &mut numbers)?;
    tell::<Square>(rt, timed, "ring, square", ring, &mut words)?;
    let blocks = Job {
        shape: Shape::Blocks,
        modules,
        edits: modules / 8,
        rounds: if timed { 20 } else { 1 },
    };
    tell::<Row>(rt, timed, "blocks, rows", blocks, &mut numbers)?;
    tell::<Square>(rt, timed, "blocks, square", blocks, &mut words)
}

fn main(rt: HostRuntime) -> anyhow::Result<()> {
    run(&rt)
}
