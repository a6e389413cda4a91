ghost use Rattle.std.specs.Prelude.{◌≡◌, ◌+◌, ◌*◌, ◌≤◌, ◌++◌, length};
ghost use Rattle.digits.specs.Digits.{digits};
ghost use Rattle.digits.specs.Lay.{laid};
ghost use Rattle.lines.specs.Lines.{modules_text};

use digits::lay_number;
use tables::index::ModuleIdx;

// A buffer, and the place in it where the next digits go.
#[derive(Drop)]
pub(crate) struct Pen<'a> {
    pub(crate) out: &'a mut [u8],
    pub(crate) at: usize,
}

impl<'a> Pen<'a> {
    pub(crate) fn new(out: &'a mut [u8]) -> Pen<'a>
        ensures out { result.out.now ≡ out.old }
        ensures at { result.at ≡ 0 }
        ensures lender { result.out.ghost_name ≡ out.entry.ghost_name }
    {
        Pen { out, at: 0 }
    }

    // The digits of a number, where there is room for them.
    pub(crate) fn put(&mut self, width: usize, value: u64)
        requires { self.old.at + 2 * width ≤ length self.old.out.now }
        ensures out { self.new.out.now ≡ laid self.old.out.now self.old.at (digits (2 * width) value) }
        ensures at { self.new.at ≡ self.old.at + 2 * width }
        ensures long { length self.new.out.now ≡ length self.old.out.now }
        ensures lender { self.new.out.ghost_name ≡ self.old.out.ghost_name }
    {
        let _ = lay_number(self.out, self.at, width, value);
        self.at += 2 * width;
    }

    // How many modules there are, and then the modules.
    pub(crate) fn put_modules(&mut self, modules: &[ModuleIdx])
        requires { self.old.at + (4 + 4 * length modules.now) ≤ length self.old.out.now }
        ensures out { self.new.out.now ≡ laid self.old.out.now self.old.at (digits 4 (length modules.now) ++ modules_text modules.now) }
        ensures at { self.new.at ≡ self.old.at + (4 + 4 * length modules.now) }
        ensures lender { self.new.out.ghost_name ≡ self.old.out.ghost_name }
    {
        self.put(2, modules.len() as u64);
        for m in modules {
            self.put(2, u64::from(m.0));
        }
    }
}
