use crate::exports_read::{Told, told};
use std::alloc::{AllocError, Global};
use std::process::Abort;
use std::test::Fail;

fn repeated(
    heap: Global,
    head: &str,
    line: &str,
    count: u16,
    tail: &str,
) -> Result<String, AllocError> {
    let mut text = String::from_str(heap, head)?;
    for _ in 0..count {
        text.push_str(line)?;
    }
    text.push_str(tail)?;
    Ok(text)
}

// So many lines after a head are accepted with a call after them, and of one line more the last is refused by 5.
fn limited(
    rt: &impl Abort,
    heap: Global,
    head: &str,
    before: u32,
    line: &str,
    limit: u16,
) -> Result<(), Fail> {
    let lines = before.saturating_add(u32::from(limit)).saturating_add(1);
    let fits = repeated(heap, head, line, limit, "44\n")?;
    assert_eq!(rt; told(heap, fits.as_str())?, Ok(lines));
    let past = repeated(heap, head, line, limit.saturating_add(1), "44\n")?;
    assert_eq!(rt; told(heap, past.as_str())?, Err((5, lines)));
    Ok(())
}

// What an M line with an id of so many bytes is told.
fn module_told(heap: Global, head: &str, id_bytes: u16) -> Result<Told, Fail> {
    let text = repeated(heap, head, "61", id_bytes, "\n44\n")?;
    told(heap, text.as_str())
}

#[test]
fn ids_have_1_to_200_bytes(rt: HostRuntime) -> Result<(), Fail> {
    let head = "47000000\n4D000200000001";
    let heap = rt.alloc();
    assert_eq!(rt; module_told(heap, head, 200)?, Ok(3));
    assert_eq!(rt; module_told(heap, head, 201)?, Err((5, 2)));
    assert_eq!(rt; module_told(heap, head, 249)?, Err((5, 2)), "512 digits");
    assert_eq!(rt; module_told(heap, head, 250)?, Err((1, 2)), "514 digits");
    assert_eq!(rt;
        module_told(heap, head, 9000)?,
        Err((1, 2)),
        "a line that is not held whole"
    );
    Ok(())
}

#[test]
fn ids_have_32768_bytes_in_all(rt: HostRuntime) -> Result<(), Fail> {
    let heap = rt.alloc();
    let wide = repeated(heap, "4D000200000001", "61", 64, "\n")?;
    let head = repeated(heap, "47000000\n", wide.as_str(), 511, "4D000200000001")?;
    assert_eq!(rt; module_told(heap, head.as_str(), 64)?, Ok(514));
    assert_eq!(rt; module_told(heap, head.as_str(), 65)?, Err((5, 513)));
    Ok(())
}

#[test]
fn each_list_has_its_limit(rt: HostRuntime) -> Result<(), Fail> {
    let heap = rt.alloc();
    let head = "47000000\n4D00020000000161\n";
    limited(&rt, heap, "47000000\n", 1, "4D00020000000161\n", 512)?;
    limited(&rt, heap, head, 2, "52010000\n", 8192)?;
    limited(&rt, heap, head, 2, "45000000\n", 64)?;
    limited(&rt, heap, head, 2, "530000\n", 512)
}
