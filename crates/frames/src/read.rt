ghost use Rattle.std.specs.Prelude.{◌≡◌, false, is_ok, if◌then◌else◌, IfErr};
ghost use Rattle.tables.specs.declared.refusal.Refusal.TheVariants.{OutOfStage};
ghost use Rattle.frames.specs.Text.{viewed, frame_of, frame_under};
ghost use Rattle.frames.specs.Spelling.{Reads};
ghost use Rattle.frames.specs.Stages.{takes, after, moved_by};
ghost use Rattle.frames.specs.declared.stage.Stage.TheVariants.{Start};

use crate::frame::Frame;
use crate::line::Line;
use crate::stage::{Reader, Stage};
use tables::refusal::Refusal;

// Reads a line as a frame, whatever came before it: the frame that the line spells, and else the smallest refusal.
pub fn read_frame(line: &[u8]) -> Result<Frame<'_>, Refusal>
    ensures frame { viewed result ≡ frame_of line.now }
    ensures spelled { Reads line.now (viewed result) }
{
    read_spelled(line)
}

// Apart from `read_frame`, and `read_any` from it, so that a wrong answer of either is refused for the promise.
fn read_spelled(text: &[u8]) -> Result<Frame<'_>, Refusal>
    ensures frame { viewed result ≡ frame_of text.now }
    ensures spelled { Reads text.now (viewed result) }
{
    read_any(text)
}

fn read_any(text: &[u8]) -> Result<Frame<'_>, Refusal>
    ensures { viewed result ≡ frame_of text.now }
{
    Line::new(text)?.fields()
}

impl Reader {
    // A reader before the first line.
    pub fn new() -> Reader
        ensures stage { result.stage ≡ Start }
        ensures any_module { result.any_module ≡ false }
    {
        Reader {
            stage: Stage::Start,
            any_module: false,
        }
    }

    // Takes a letter where it stands, and stands where the letter leads; refused, and unchanged, where it does not take it.
    pub fn advance(&mut self, letter: char) -> Result<(), Refusal>
        ensures takes { is_ok result ≡ takes self.old letter }
        ensures refused { IfErr result (λ why. why ≡ OutOfStage) }
        ensures after { self.new ≡ (if is_ok result then after self.old letter else self.old) }
    {
        match (&mut self.stage, letter) {
            (stage @ Stage::Start, 'G') => *stage = Stage::Tables,
            (Stage::Tables, 'M') => self.any_module = true,
            (Stage::Tables, 'S' | 'E') => {}
            (Stage::Tables, 'R') if self.any_module => {}
            (stage @ (Stage::Tables | Stage::Calls), 'L' | 'U' | 'I' | 'X' | 'D') => {
                *stage = Stage::Calls
            }
            _ => return Err(Refusal::OutOfStage),
        }
        Ok(())
    }

    // Reads the next line; a refused line leaves the reader where it stands.
    pub fn read<'a>(&mut self, text: &'a [u8]) -> Result<Frame<'a>, Refusal>
        ensures frame { viewed result ≡ frame_under (takes self.old) text.now }
        ensures reader { self.new ≡ moved_by self.old text.now (is_ok result) }
    {
        let line = Line::new(text)?;
        let mut next = *self;
        next.advance(line.letter)?;
        let frame = line.fields()?;
        *self = next;
        Ok(frame)
    }
}
