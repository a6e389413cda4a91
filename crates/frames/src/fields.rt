ghost use Rattle.std.specs.Prelude.{◌≡◌, ◌≤◌, length};
ghost use Rattle.frames.specs.Text.{viewed, bytes_of, options_text, module_text, record_text, entry_text};
ghost use Rattle.frames.specs.Lines.{said_by};

use crate::frame::Frame;
use crate::line::Line;
use tables::module::{
    ChunkModulesOrderBy, EntryPoint, EntryPointKind, ImportKind, ImportRecord, ModuleFlags, Options,
};
use tables::refusal::Refusal;

// The number that stands for no module in an import record: it is compared as a number, since no module has it.
const NO_MODULE: u16 = 65535;

// The digits before a module's id, which is handed out as digits.
const ID_PLACE: usize = 14;

// The readers that ask for a length are called where the letter tells it.
impl<'a> Line<'a> {
    // The frame, by its letter.
    pub(crate) fn fields(&self) -> Result<Frame<'a>, Refusal>
        ensures { viewed result ≡ said_by self.now }
    {
        match self.letter {
            'G' => self.options(),
            'M' => self.module(),
            'R' => self.import_record(),
            'S' => Ok(Frame::Listed(self.module_at(1))),
            'E' => self.entry(),
            'L' => Ok(Frame::Link(self.module_at(1), self.module_at(3))),
            'U' => Ok(Frame::Unlink(self.module_at(1), self.module_at(3))),
            'I' => Ok(Frame::Include(self.module_at(1))),
            'X' => Ok(Frame::Exclude(self.module_at(1))),
            _ => Ok(Frame::Draw),
        }
    }

    // G: flags and the runtime module. No type stands for the two flags alone, so they are read here.
    fn options(&self) -> Result<Frame<'a>, Refusal>
        requires { length (bytes_of self.now.digits.now) ≡ 4 }
        ensures { viewed result ≡ options_text (bytes_of self.now.digits.now) }
    {
        let (code_splitting, chunk_modules_order) = match self.field(1, 2) {
            0 => (false, ChunkModulesOrderBy::ExecOrder),
            1 => (true, ChunkModulesOrderBy::ExecOrder),
            2 => (false, ChunkModulesOrderBy::ModuleId),
            3 => (true, ChunkModulesOrderBy::ModuleId),
            _ => return Err(Refusal::FieldValue),
        };
        Ok(Frame::Options(Options {
            code_splitting,
            chunk_modules_order,
            runtime_module: self.module_at(2),
        }))
    }

    // M: flags, the execution order and the id.
    fn module(&self) -> Result<Frame<'a>, Refusal>
        requires { 7 ≤ length (bytes_of self.now.digits.now) }
        ensures { viewed result ≡ module_text self.now.digits.now (bytes_of self.now.digits.now) }
    {
        let flags = ModuleFlags::try_from(self.field(1, 3) as u16)?;
        Ok(Frame::Module {
            flags,
            exec_order: self.field(3, 7) as u32,
            id_digits: &self.digits[ID_PLACE..],
            place: ID_PLACE,
        })
    }

    // R: the kind and the module.
    fn import_record(&self) -> Result<Frame<'a>, Refusal>
        requires { length (bytes_of self.now.digits.now) ≡ 4 }
        ensures { viewed result ≡ record_text (bytes_of self.now.digits.now) }
    {
        let kind = ImportKind::try_from(self.field(1, 2) as u16)?;
        let module = self.module_at(2);
        Ok(Frame::ImportRecord(ImportRecord {
            kind,
            resolved_module: (module.0 != NO_MODULE).then_some(module),
        }))
    }

    // E: the module and the kind.
    fn entry(&self) -> Result<Frame<'a>, Refusal>
        requires { length (bytes_of self.now.digits.now) ≡ 4 }
        ensures { viewed result ≡ entry_text (bytes_of self.now.digits.now) }
    {
        let kind = EntryPointKind::try_from(self.field(3, 4) as u16)?;
        Ok(Frame::Entry(EntryPoint {
            module: self.module_at(1),
            kind,
        }))
    }
}
