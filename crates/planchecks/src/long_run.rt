use crate::samples::{lent, planned};
use crate::steps::{agrees, exclude, include, link, told, unlink};
use plans::plan::{Edit, Plan};
use rows::Row;
use squares::Square;
use std::alloc::Global;
use std::process::Abort;
use std::test::Fail;
use stores::store::DependencyStore;

const MODULES: usize = 12;

// Two entries are of module 1, and the last is of the external module 6.
static STARTS: [u16; 5] = [1, 1, 4, 9, 6];

// The pairs and the open modules, kept beside a plan.
#[derive(Clone, Copy)]
struct Model {
    pairs: [[bool; 12]; 12],
    open: [bool; 12],
}

impl Model {
    // No pairs; all modules but the runtime module and the external one are open.
    fn first() -> Model {
        let mut open = [true; 12];
        open[0] = false;
        open[6] = false;
        Model {
            pairs: [[false; 12]; 12],
            open,
        }
    }

    // Makes an accepted edit; the external module stays shut.
    fn put(&mut self, edit: Edit) {
        let (m, d, on) = match edit {
            Edit::Link(m, d) => (m, Some(d), true),
            Edit::Unlink(m, d) => (m, Some(d), false),
            Edit::Include(m) => (m, None, true),
            Edit::Exclude(m) => (m, None, false),
        };
        let m = usize::from(m) % MODULES;
        match d {
            Some(d) => self.pairs[m][usize::from(d) % MODULES] = on,
            None => self.open[m] = on && m != 6,
        }
    }

    // Marks the open modules that a marked one loads.
    fn spread(&self, reached: &mut [bool; 12]) {
        for (m, loads) in self.pairs.iter().enumerate() {
            for (d, pair) in loads.iter().enumerate() {
                if reached[m] && *pair && self.open[d] {
                    reached[d] = true;
                }
            }
        }
    }

    // The modules that a path leads to from `start`, marked turn by turn.
    fn reached(&self, start: u16) -> [bool; 12] {
        let mut reached = [false; 12];
        let start = usize::from(start) % MODULES;
        reached[start] = self.open[start];
        for _ in 0..MODULES {
            self.spread(&mut reached);
        }
        reached
    }

    // The sets of all modules, as numbers with bit e for entry e.
    fn sets(&self) -> [u64; 12] {
        let mut sets = [0u64; 12];
        for (bit, start) in [1u64, 2, 4, 8, 16].into_iter().zip(STARTS) {
            for (set, is_reached) in sets.iter_mut().zip(self.reached(start)) {
                if is_reached {
                    *set |= bit;
                }
            }
        }
        sets
    }
}

// A module of a panel of 12, or at times one that is not there.
fn module_of(x: u32) -> u16 {
    (x % 13) as u16
}

// An edit of a number: mostly of pairs, of which few stay.
fn edit_of(x: u32) -> Edit {
    let m = module_of(x / 16);
    let d = module_of(x / 4096);
    match x / 16777216 % 16 {
        0 | 1 => link(m, d),
        12 | 13 | 14 => include(m),
        15 => exclude(m),
        _ => unlink(m, d),
    }
}

// Makes so many edits, and holds each against the model; the answer is how many were accepted and how many modules they moved in all.
fn follows<S: DependencyStore + Drop>(
    rt: &impl Abort,
    mut plan: Plan<S>,
    edits: u32,
) -> (usize, usize) {
    let mut model = Model::first();
    let mut before = model.sets();
    let mut after = before;
    let mut x: u32 = 12345;
    let mut accepted: usize = 0;
    let mut moved: usize = 0;
    for _ in 0..edits {
        x = x.wrapping_mul(1664525).wrapping_add(1013904223);
        let edit = edit_of(x);
        let answer = told(&mut plan, edit);
        if let Ok(count) = answer {
            model.put(edit);
            before = after;
            after = model.sets();
            accepted = accepted.saturating_add(1);
            moved = moved.saturating_add(count);
        }
        let differing = agrees(rt, &plan, &before, &after);
        assert!(rt; answer.is_err() || answer == Ok(differing));
    }
    (accepted, moved)
}

#[test]
fn a_long_run_of_edits(rt: HostRuntime) -> Result<(), Fail> {
    let mut numbers = [0u16; 780];
    let over_rows = planned(rt.alloc(), &STARTS, Some(6), lent::<Row>(&mut numbers)?)?;
    let by_rows = follows(&rt, over_rows, 6000);
    assert!(rt; by_rows.0 > 2000 && by_rows.1 > 1000);
    let mut words = [0u64; 96];
    let over_square = planned(rt.alloc(), &STARTS, Some(6), lent::<Square>(&mut words)?)?;
    assert_eq!(rt; follows(&rt, over_square, 6000), by_rows);
    Ok(())
}
