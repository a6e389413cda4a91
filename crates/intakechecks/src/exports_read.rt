use exports::export::BuildError;
use panels::session::Session;
use std::alloc::Global;
use std::process::Abort;
use std::test::Fail;
use tables::index::ModuleIdx;

// How many lines were read where all are accepted; else the number of the first refusal, and its line.
pub(crate) type Told = Result<u32, (u8, u32)>;

fn read(session: &mut Session, text: &str) -> Result<(), BuildError> {
    for b in text.as_bytes() {
        session.push(*b)?;
    }
    session.finish()
}

pub(crate) fn told(heap: Global, text: &str) -> Result<Told, Fail> {
    let mut session = Session::new(heap)?;
    match read(&mut session, text) {
        Ok(()) => Ok(Ok(session.lines)),
        Err(BuildError::Refused(why)) => Ok(Err((u8::from(why), session.lines))),
        Err(BuildError::OutOfMemory) => Err(Fail::new("out of memory")),
    }
}

// What is tried, the text, and what is to be told of it.
pub(crate) struct Case(pub &'static str, pub &'static str, pub Told);

pub(crate) fn agree(rt: &impl Abort, heap: Global, cases: &[Case]) -> Result<(), Fail> {
    for case in cases {
        assert_eq!(rt; told(heap, case.1)?, case.2, "{}", case.0);
    }
    Ok(())
}

#[test]
fn the_sample_is_read(rt: HostRuntime) -> Result<(), Fail> {
    let sample =
        "47000000\n4D00020000000261\n4D00020000000162\n530001\n530000\n45000000\n4C00000001\n44\n";
    let mut session = Session::new(rt.alloc())?;
    for b in sample.as_bytes() {
        assert!(rt; session.push(*b).is_ok());
    }
    let table = &session.intake.export.table;
    assert_eq!(rt;
        (
            session.lines,
            table.len(),
            table.entries().len(),
            table.listed().len(),
        ),
        (8, 2, 1, 2)
    );
    assert_eq!(rt;
        (
            table.exec_order(ModuleIdx(0)),
            table.exec_order(ModuleIdx(1)),
        ),
        (2, 1)
    );
    assert_eq!(rt;
        (
            table.id(ModuleIdx(0)).first().copied(),
            table.id(ModuleIdx(1)).first().copied(),
        ),
        (Some(97), Some(98))
    );
    assert_eq!(rt;
        (session.intake.calls.link, session.intake.calls.draw),
        (1, 1)
    );
    Ok(())
}

#[test]
fn a_last_line_needs_no_line_feed(rt: HostRuntime) -> Result<(), Fail> {
    agree(
        &rt,
        rt.alloc(),
        &[
            Case("nothing", "", Ok(0)),
            Case("no line feed", "47000000", Ok(1)),
            Case("a line feed at the end", "47000000\n", Ok(1)),
            Case("an empty line", "47000000\n\n", Err((1, 2))),
        ],
    )
}
