use rows::{Row, RowStore};
use squares::{Square, SquareStore};
use std::alloc::Global;
use std::process::Abort;
use std::test::Fail;
use stores::layout::Layout;
use stores::lent::LentStore;
use stores::store::DependencyStore;

// What creation answers, a refusal by its number, and then the first and the last cell of the memory, which was filled with `before`. A store that is made has that size.
fn created<L: Layout + Drop>(
    rt: &impl Abort,
    heap: Global,
    before: L::Cell,
    size: usize,
    room: usize,
) -> Result<(Result<(), u8>, L::Cell, L::Cell), Fail> {
    let mut cells = vec![in heap; before; room]?;
    let answer = match LentStore::<L>::create(size, cells.as_mut_slice()) {
        Ok(store) => {
            assert_eq!(rt; store.size(), size);
            Ok(())
        }
        Err(returned) => Err(u8::from(returned.why)),
    };
    let first = *cells.first().ok_or("no room")?;
    let last = *cells.last().ok_or("no room")?;
    Ok((answer, first, last))
}

#[test]
fn rows_have_sizes_1_to_512(rt: HostRuntime) -> Result<(), Fail> {
    let heap = rt.alloc();
    assert_eq!(rt; created::<Row>(&rt, heap, 7, 0, 100)?, (Err(5), 7, 7));
    assert_eq!(rt; created::<Row>(&rt, heap, 7, 513, 33345)?, (Err(5), 7, 7));
    assert_eq!(rt; created::<Row>(&rt, heap, 7, 1, 64)?, (Err(16), 7, 7));
    assert_eq!(rt;
        created::<Row>(&rt, heap, 7, 1, 65)?,
        (Ok(()), 65535, 65535)
    );
    assert_eq!(rt; created::<Row>(&rt, heap, 7, 1, 66)?, (Ok(()), 65535, 7));
    assert_eq!(rt; created::<Row>(&rt, heap, 7, 512, 33279)?, (Err(16), 7, 7));
    assert_eq!(rt;
        created::<Row>(&rt, heap, 7, 512, 33281)?,
        (Ok(()), 65535, 7)
    );
    Ok(())
}

#[test]
fn squares_have_sizes_1_to_512(rt: HostRuntime) -> Result<(), Fail> {
    let heap = rt.alloc();
    assert_eq!(rt; created::<Square>(&rt, heap, 7, 0, 100)?, (Err(5), 7, 7));
    assert_eq!(rt; created::<Square>(&rt, heap, 7, 513, 4104)?, (Err(5), 7, 7));
    assert_eq!(rt; created::<Square>(&rt, heap, 7, 1, 7)?, (Err(16), 7, 7));
    assert_eq!(rt; created::<Square>(&rt, heap, 7, 1, 8)?, (Ok(()), 0, 0));
    assert_eq!(rt; created::<Square>(&rt, heap, 7, 1, 9)?, (Ok(()), 0, 7));
    assert_eq!(rt;
        created::<Square>(&rt, heap, 7, 512, 4095)?,
        (Err(16), 7, 7)
    );
    assert_eq!(rt; created::<Square>(&rt, heap, 7, 512, 4097)?, (Ok(()), 0, 7));
    Ok(())
}

#[test]
fn each_store_tells_its_memory(rt: HostRuntime) {
    assert_eq!(rt;
        (
            <RowStore<'_> as DependencyStore>::MEMORY_PER_MODULE,
            <SquareStore<'_> as DependencyStore>::MEMORY_PER_MODULE,
        ),
        (65, 8)
    );
}
