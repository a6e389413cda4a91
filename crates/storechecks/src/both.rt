use rows::{Row, RowStore};
use squares::{Square, SquareStore};
use std::alloc::{AllocError, Global};
use std::process::Abort;
use std::test::Fail;
use stores::edit::Edit;
use stores::layout::Layout;
use stores::lent::LentStore;
use stores::replay::replay;
use stores::store::DependencyStore;
use tables::index::ModuleIdx;
use tables::refusal::Refusal;

// A refusal by its number.
fn told(answer: Result<(), Refusal>) -> Result<(), u8> {
    answer.map_err(u8::from)
}

// 64 dependencies are accepted, a 65th is not, and after one is unlinked it is.
fn holds_64<S: DependencyStore>(rt: &impl Abort, store: &mut S) {
    for d in 0..64u16 {
        assert_eq!(rt; told(store.link(ModuleIdx(1), ModuleIdx(2 * d))), Ok(()));
    }
    assert_eq!(rt; told(store.link(ModuleIdx(1), ModuleIdx(129))), Err(11));
    assert_eq!(rt; told(store.link(ModuleIdx(1), ModuleIdx(126))), Err(10));
    assert_eq!(rt; told(store.unlink(ModuleIdx(1), ModuleIdx(129))), Err(12));
    assert_eq!(rt; told(store.unlink(ModuleIdx(1), ModuleIdx(0))), Ok(()));
    assert_eq!(rt; told(store.link(ModuleIdx(1), ModuleIdx(129))), Ok(()));
    assert_eq!(rt; told(store.link(ModuleIdx(1), ModuleIdx(512))), Err(6));
}

// What it loads, read off by `next`, ascends and ends.
fn walks_on<S: DependencyStore>(rt: &impl Abort, store: &S) -> Result<(), Fail> {
    let first = store.next(ModuleIdx(1), ModuleIdx(0));
    assert_eq!(rt; first.ok_or("none")?.0, 2);
    assert!(rt; store.next(ModuleIdx(1), ModuleIdx(130)).is_none());
    assert!(rt; store.next(ModuleIdx(600), ModuleIdx(0)).is_none());
    assert!(rt; !store.has(ModuleIdx(1), ModuleIdx(600)));
    Ok(())
}

// Both, at a store of 512 modules in that memory.
fn fills<L: Layout + Drop>(rt: &impl Abort, memory: &mut [L::Cell]) -> Result<(), Fail> {
    let Ok(mut store) = LentStore::<L>::create(512, memory) else {
        return Err(Fail::new("store refused"));
    };
    holds_64(rt, &mut store);
    walks_on(rt, &store)
}

#[test]
fn a_module_has_64_dependencies_in_rows(rt: HostRuntime) -> Result<(), Fail> {
    fills::<Row>(&rt, &mut [7u16; 33280])
}

#[test]
fn a_module_has_64_dependencies_in_a_square(rt: HostRuntime) -> Result<(), Fail> {
    fills::<Square>(&rt, &mut [7u64; 4096])
}

// A list of links and unlinks among few modules and some numbers past them, by a linear congruence.
fn edits(heap: Global, count: u16) -> Result<Vec<Edit>, AllocError> {
    let mut list = Vec::new(heap);
    let mut x: u32 = 12345;
    for _ in 0..count {
        x = x.wrapping_mul(1103515245).wrapping_add(12345);
        let m = ModuleIdx(((x >> 8) % 5) as u16);
        let d = ModuleIdx(((x >> 16) % 90) as u16);
        if (x >> 28) % 4 == 0 {
            list.push(Edit::Unlink(m, d))?;
        } else {
            list.push(Edit::Link(m, d))?;
        }
    }
    Ok(list)
}

fn same_answers(rt: &impl Abort, a: &[Result<(), Refusal>], b: &[Result<(), Refusal>]) {
    assert_eq!(rt; a.len(), b.len());
    for (x, y) in a.iter().zip(b) {
        assert_eq!(rt; told(*x), told(*y));
    }
}

fn same_pairs<S: DependencyStore, T: DependencyStore>(rt: &impl Abort, a: &S, b: &T) {
    for m in 0..90u16 {
        for d in 0..90u16 {
            assert_eq!(rt;
                a.has(ModuleIdx(m), ModuleIdx(d)),
                b.has(ModuleIdx(m), ModuleIdx(d))
            );
        }
    }
}

#[test]
fn both_stores_answer_alike(rt: HostRuntime) -> Result<(), Fail> {
    let mut numbers = [0u16; 5590];
    let mut words = [0u64; 688];
    let Ok(mut rows) = RowStore::create(86, &mut numbers) else {
        return Err(Fail::new("rows refused"));
    };
    let Ok(mut square) = SquareStore::create(86, &mut words) else {
        return Err(Fail::new("square refused"));
    };
    let list = edits(rt.alloc(), 3000)?;
    let by_rows = replay(rt.alloc(), &mut rows, list.as_slice())?;
    let by_square = replay(rt.alloc(), &mut square, list.as_slice())?;
    same_answers(&rt, by_rows.as_slice(), by_square.as_slice());
    same_pairs(&rt, &rows, &square);
    for kind in [Ok(()), Err(6), Err(10), Err(11), Err(12)] {
        assert!(rt; by_rows.iter().any(|answer| told(*answer) == kind));
    }
    Ok(())
}
