ghost use Rattle.std.specs.Prelude.{◌≡◌, is_ok, if◌then◌else◌};
ghost use Rattle.panels.specs.Reads.{read_of, first_read, line_refusal, line_after, Answer};

use crate::intake::{CallCounts, Intake};
use exports::export::{BuildError, Export};
use frames::stage::Reader;
use std::alloc::Global;
use tables::index::ModuleIdx;
use tables::module::{ChunkModulesOrderBy, Options};

impl Intake {
    // An export before its first line.
    pub fn new(heap: Global) -> Intake
        ensures { read_of result ≡ first_read }
    {
        let options = Options {
            code_splitting: false,
            chunk_modules_order: ChunkModulesOrderBy::ExecOrder,
            runtime_module: ModuleIdx(0),
        };
        Intake {
            heap,
            reader: Reader::new(),
            export: Export::new(heap, options),
            calls: CallCounts::default(),
        }
    }

    // One line more: accepted, it does what its frame asks; refused, it changes nothing.
    pub fn feed(&mut self, line: &[u8]) -> Result<(), BuildError>
        ensures answer { Answer (line_refusal (read_of self.old) line.now) result }
        ensures after { read_of self.new ≡ (if is_ok result then line_after (read_of self.old) line.now else read_of self.old) }
    {
        let mut reader = self.reader;
        let frame = reader.read(line)?;
        self.take(frame)?;
        self.reader = reader;
        Ok(())
    }
}
