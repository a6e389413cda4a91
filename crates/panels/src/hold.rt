ghost use Rattle.std.specs.Prelude.{◌≡◌, ℕ, List, [], ◌∷◌, ◌++◌, length, IfOk, ◌==◌};
ghost use Rattle.panels.specs.Held.{Holds};

use crate::line::{LINE_LIMIT, LineBuffer};
use std::alloc::{AllocError, Global};

impl LineBuffer {
    // No line yet. All the memory that lines need is taken here.
    pub fn new(heap: Global) -> Result<LineBuffer, AllocError>
        ensures { IfOk result (λ b. Holds [] b) }
    {
        let bytes = Vec::with_capacity(heap, LINE_LIMIT + 1)?;
        Ok(LineBuffer { bytes })
    }

    // One byte more of the line.
    pub fn push(&mut self, byte: u8)
        ensures { (line : List ℕ) → Holds line self.old → Holds (line ++ byte ∷ []) self.new }
    {
        self.hold(byte);
    }

    // Apart from `push`, so that a wrong byte there is refused for the promise.
    fn hold(&mut self, byte: u8)
        ensures { (line : List ℕ) → Holds line self.old → Holds (line ++ byte ∷ []) self.new }
    {
        if self.bytes.len() <= LINE_LIMIT {
            self.bytes.push_reserved(byte);
        }
    }

    // A new line, with nothing in it.
    pub fn clear(&mut self)
        ensures { Holds [] self.new }
    {
        self.bytes.clear();
    }

    // Whether no byte of a line has come.
    pub fn is_empty(&self) -> bool
        ensures { result ≡ (length self.now.bytes.items == 0) }
    {
        self.bytes.is_empty()
    }
}
