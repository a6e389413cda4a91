ghost use Rattle.std.specs.Prelude.{◌≡◌, is_ok, if◌then◌else◌};
ghost use Rattle.std.specs.Result.{result_err};
ghost use Rattle.frames.specs.Text.{said, a_module};
ghost use Rattle.panels.specs.Reads.{read_of, refusal_of, opening, with_frame, with_call, counted, Answer};

use crate::intake::{Call, CallCounts, Intake};
use digits::decode;
use exports::export::{BuildError, Export};
use frames::frame::Frame;
use frames::stage::Stage;
use tables::module::ModuleFlags;
use tables::refusal::Refusal;

impl CallCounts {
    fn count(&mut self, call: Call)
        ensures { self.new ≡ counted call self.old }
    {
        match call {
            Call::Link => self.link = self.link.saturating_add(1),
            Call::Unlink => self.unlink = self.unlink.saturating_add(1),
            Call::Include => self.include = self.include.saturating_add(1),
            Call::Exclude => self.exclude = self.exclude.saturating_add(1),
            Call::Draw => self.draw = self.draw.saturating_add(1),
        }
    }
}

// What a frame asks for, once it is read; the reader stays where it stands.
impl Intake {
    pub(crate) fn take(&mut self, frame: Frame<'_>) -> Result<(), BuildError>
        ensures answer { Answer (refusal_of (said frame.entry) (read_of self.old)) result }
        ensures after { read_of self.new ≡ (if is_ok result then with_frame (said frame.entry) self.old.reader (read_of self.old) else read_of self.old) }
    {
        match frame {
            Frame::Options(options) => {
                self.export = Export::new(self.heap, options);
                Ok(())
            }
            Frame::Module {
                flags,
                exec_order,
                id_digits,
                ..
            } => self.take_module(flags, exec_order, id_digits),
            Frame::ImportRecord(record) => self.export.add_import_record(record),
            Frame::Listed(m) => self.export.add_listed(m),
            Frame::Entry(entry) => self.export.add_entry(entry),
            Frame::Link(_, _) => self.take_call(Call::Link),
            Frame::Unlink(_, _) => self.take_call(Call::Unlink),
            Frame::Include(_) => self.take_call(Call::Include),
            Frame::Exclude(_) => self.take_call(Call::Exclude),
            Frame::Draw => self.take_call(Call::Draw),
        }
    }

    fn take_module(
        &mut self,
        flags: ModuleFlags,
        exec_order: u32,
        id_digits: &[u8],
    ) -> Result<(), BuildError>
        ensures answer { Answer (refusal_of (a_module flags exec_order id_digits.now 14) (read_of self.old)) result }
        ensures after { read_of self.new ≡ (if is_ok result then with_frame (a_module flags exec_order id_digits.now 14) self.old.reader (read_of self.old) else read_of self.old) }
    {
        let decoded = decode(self.heap, id_digits)?;
        let id: &[u8] = match &decoded {
            Some(id) => id.as_slice(),
            None => &[],
        };
        self.export.add_module(flags, exec_order, id)
    }

    fn take_call(&mut self, call: Call) -> Result<(), BuildError>
        ensures answer { Answer (opening (read_of self.old)) result }
        ensures after { read_of self.new ≡ (if is_ok result then with_call call (read_of self.old) else read_of self.old) }
    {
        self.open_calls()?;
        self.calls.count(call);
        Ok(())
    }

    // Whether a call may come: the first finds the tables finished, and is refused as they are.
    pub fn open_calls(&self) -> Result<(), Refusal>
        ensures { result_err result ≡ opening (read_of self.now) }
    {
        match self.reader.stage {
            Stage::Calls => Ok(()),
            Stage::Start | Stage::Tables => self.export.check(),
        }
    }
}
