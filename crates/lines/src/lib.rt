// The lines that answer: refusals, moved modules, chunks and their count, in upper-case digits. It uses digits, sets and tables.
#![tactic(auto)]

ghost use Rattle.std.specs.Prelude.{◌≡◌, ◌+◌, ◌*◌, ◌≤◌, length, nat_le};
ghost use Rattle.lines.specs.Lines.{modules_text, refusal_line, edit_line, chunk_line, count_line, Written};

mod pen;

use pen::Pen;
use sets::EntrySet;
use tables::index::{ChunkIdx, ModuleIdx};
use tables::refusal::Refusal;

// What a C line says of a chunk beside its roll. `tables::module::ChunkKind` names the kinds that there are; the line has room for any byte, so one is taken.
#[derive(Clone, Copy)]
pub struct ChunkLine {
    pub chunk: ChunkIdx,
    pub kind: u8,
    pub set: EntrySet,
    pub rank: u16,
}

// Each of these writes a line without its line feed at the buffer's beginning, and answers its length; where it does not fit, it answers none and writes nothing.

pub fn write_refusal(out: &mut [u8], why: Refusal, line: u32) -> Option<usize>
    ensures { Written (refusal_line why line) out.old result out.new }
{
    if out.len() < 12 {
        return None;
    }
    let mut pen = Pen::new(out);
    pen.put(1, u64::from(b'F'));
    pen.put(1, u64::from(u8::from(why)));
    pen.put(4, u64::from(line));
    Some(pen.at)
}

pub fn write_edit(out: &mut [u8], moved: &[ModuleIdx]) -> Option<usize>
    ensures { Written (edit_line moved.now) out.old result out.new }
{
    if !has_room(out.len(), 6, moved) {
        return None;
    }
    let mut pen = Pen::new(out);
    pen.put(1, u64::from(b'N'));
    pen.put_modules(moved);
    Some(pen.at)
}

pub fn write_chunk(out: &mut [u8], chunk: &ChunkLine, roll: &[ModuleIdx]) -> Option<usize>
    ensures { Written (chunk_line chunk.now roll.now) out.old result out.new }
{
    if !has_room(out.len(), 32, roll) {
        return None;
    }
    let mut pen = Pen::new(out);
    pen.put(1, u64::from(b'C'));
    pen.put(2, u64::from(chunk.chunk.0));
    pen.put(1, u64::from(chunk.kind));
    pen.put(8, u64::from(chunk.set));
    pen.put(2, u64::from(chunk.rank));
    pen.put_modules(roll);
    Some(pen.at)
}

pub fn write_count(out: &mut [u8], chunks: u16) -> Option<usize>
    ensures { Written (count_line chunks) out.old result out.new }
{
    if out.len() < 6 {
        return None;
    }
    let mut pen = Pen::new(out);
    pen.put(1, u64::from(b'Z'));
    pen.put(2, u64::from(chunks));
    Some(pen.at)
}

// Whether modules, four digits each, end within a length after so many other digits; the sum itself may be past the largest number.
fn has_room(len: usize, head: usize, modules: &[ModuleIdx]) -> bool
    ensures room { result ≡ nat_le (head + 4 * length modules.now) len }
    ensures text { length (modules_text modules.now) ≡ 4 * length modules.now }
{
    head <= len && modules.len() <= (len - head) / 4
}
