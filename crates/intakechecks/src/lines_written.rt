use lines::{ChunkLine, write_chunk, write_count, write_edit, write_refusal};
use sets::EntrySet;
use std::process::Abort;
use tables::index::{ChunkIdx, ModuleIdx};
use tables::module::ChunkKind;
use tables::refusal::Refusal;

// A line of this text was written at the beginning, and what lies past it is as it was.
fn written(rt: &impl Abort, out: &[u8; 64], len: Option<usize>, text: &str) {
    assert_eq!(rt; len, Some(text.len()));
    for (i, b) in out.iter().enumerate() {
        let wanted = text.as_bytes().get(i).copied().unwrap_or(7);
        assert_eq!(rt; *b, wanted);
    }
}

#[test]
fn the_sample_answers_are_written(rt: HostRuntime) {
    let mut out = [7u8; 64];
    let chunk = ChunkLine {
        chunk: ChunkIdx(0),
        kind: 1,
        set: EntrySet::single(0),
        rank: 0,
    };
    let len = write_chunk(&mut out, &chunk, &[ModuleIdx(1), ModuleIdx(0)]);
    written(&rt, &out, len, "4300000100000000000000010000000200010000");
}

#[test]
fn kinds_of_chunks_have_their_numbers(rt: HostRuntime) {
    let numbers = [ChunkKind::Common, ChunkKind::Entry, ChunkKind::Runtime].map(u8::from);
    assert_eq!(rt; numbers, [0, 1, 2]);
}

#[test]
fn other_lines_are_written(rt: HostRuntime) {
    let mut edit = [7u8; 64];
    let len = write_edit(&mut edit, &[ModuleIdx(1)]);
    written(&rt, &edit, len, "4E00010001");
    let mut count = [7u8; 64];
    let len = write_count(&mut count, 1);
    written(&rt, &count, len, "5A0001");
    let mut refusal = [7u8; 64];
    let len = write_refusal(&mut refusal, Refusal::BufferRoom, 43981);
    written(&rt, &refusal, len, "46100000ABCD");
}

#[test]
fn a_line_that_does_not_fit_is_not_written(rt: HostRuntime) {
    let mut out = [7u8; 9];
    assert_eq!(rt; write_edit(&mut out, &[ModuleIdx(1)]), None);
    for b in out {
        assert_eq!(rt; b, 7);
    }
}
