ghost use Rattle.std.specs.Prelude.{◌≡◌, false, slice_index_or, slice_set};

use crate::index::ModuleIdx;

// Which modules are included: a mark for each. They alone of an export change later.
#[derive(Drop)]
pub struct Included {
    pub marks: Vec<bool>,
}

impl Included {
    // A number that no module has is not included.
    pub fn contains(&self, m: ModuleIdx) -> bool
        ensures { result ≡ slice_index_or self.now.marks.items m.0 false }
    {
        self.marks.get(usize::from(m)).copied().unwrap_or(false)
    }

    // Sets or clears the mark of a module; a number that no module has changes nothing.
    pub fn put(&mut self, m: ModuleIdx, on: bool)
        ensures { self.new.marks.items ≡ slice_set self.old.marks.items m.0 on }
    {
        if let Some(mark) = self.marks.get_mut(usize::from(m)) {
            *mark = on;
        }
    }
}
