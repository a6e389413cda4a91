ghost use Rattle.std.specs.Prelude.{◌≡◌, ℕ, List, [], IfOk, MatchBool, ◌==◌};
ghost use Rattle.panels.specs.Bytes.{Begun, Ended, HeldOn, Finished};
ghost use Rattle.panels.specs.Held.{Holds};

use crate::intake::Intake;
use crate::line::LineBuffer;
use crate::session::Session;
use exports::export::BuildError;
use std::alloc::{AllocError, Global};

impl Session {
    pub fn new(heap: Global) -> Result<Session, AllocError>
        ensures { IfOk result Begun }
    {
        let held = LineBuffer::new(heap)?;
        Ok(Session {
            intake: Intake::new(heap),
            held,
            lines: 0,
        })
    }

    // One byte more of the input: a line feed ends the line, any other byte goes on with it.
    pub fn push(&mut self, byte: u8) -> Result<(), BuildError>
        ensures { (line : List ℕ) → Holds line self.old.held → MatchBool (byte == 10) (Ended line self.old result self.new) (HeldOn line byte self.old result self.new) }
    {
        if byte == b'\n' {
            return self.end_line();
        }
        self.held.push(byte);
        Ok(())
    }

    // The input's end, which ends a line that has begun.
    pub fn finish(&mut self) -> Result<(), BuildError>
        ensures { (line : List ℕ) → Holds line self.old.held → Finished line self.old result self.new }
    {
        if self.held.is_empty() {
            return Ok(());
        }
        self.end_line()
    }

    fn end_line(&mut self) -> Result<(), BuildError>
        ensures { (line : List ℕ) → Holds line self.old.held → Ended line self.old result self.new }
    {
        self.lines = self.lines.saturating_add(1);
        let answer = self.intake.feed(self.held.bytes.as_slice());
        self.held.clear();
        answer
    }
}
