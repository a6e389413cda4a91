ghost use Rattle.plans.specs.Accounts.{Extends};
ghost use Rattle.plans.specs.Book.{linking, unlinking, including, excluding};
ghost use Rattle.plans.specs.Edited.{EditedBy};
ghost use Rattle.plans.specs.Runs.{call_for};

use crate::plan::{Edit, Plan};
use stores::store::DependencyStore;
use tables::index::ModuleIdx;
use tables::refusal::Refusal;

// Each edit is accepted, and answers how many modules moved, or refused, and changes nothing. From any history that the plan accounts for it comes to that history with this call on top.
impl<S: DependencyStore> Plan<S> {
    // Module `m` loads `d` from now on.
    pub fn link(&mut self, m: ModuleIdx, d: ModuleIdx) -> Result<usize, Refusal>
        ensures edited { EditedBy S.modules S.loads S.outside (linking m.0 d.0) self.old result self.new }
        ensures lawful { Extends S.modules S.loads (linking m.0 d.0) self.old result self.new }
    {
        self.add_pair(m, d)
    }

    // Module `m` loads `d` no more.
    pub fn unlink(&mut self, m: ModuleIdx, d: ModuleIdx) -> Result<usize, Refusal>
        ensures edited { EditedBy S.modules S.loads S.outside (unlinking m.0 d.0) self.old result self.new }
        ensures lawful { Extends S.modules S.loads (unlinking m.0 d.0) self.old result self.new }
    {
        self.strike_pair(m, d)
    }

    // Module `m` is included from now on; it may be already.
    pub fn include(&mut self, m: ModuleIdx) -> Result<usize, Refusal>
        ensures edited { EditedBy S.modules S.loads S.outside (including m.0) self.old result self.new }
        ensures lawful { Extends S.modules S.loads (including m.0) self.old result self.new }
    {
        self.set_mark(m)
    }

    // Module `m` is included no more; it may be so already.
    pub fn exclude(&mut self, m: ModuleIdx) -> Result<usize, Refusal>
        ensures edited { EditedBy S.modules S.loads S.outside (excluding m.0) self.old result self.new }
        ensures lawful { Extends S.modules S.loads (excluding m.0) self.old result self.new }
    {
        self.clear_mark(m)
    }

    // The edit that a value names.
    pub fn edit(&mut self, edit: Edit) -> Result<usize, Refusal>
        ensures edited { EditedBy S.modules S.loads S.outside (call_for edit) self.old result self.new }
        ensures lawful { Extends S.modules S.loads (call_for edit) self.old result self.new }
    {
        match edit {
            Edit::Link(m, d) => self.link(m, d),
            Edit::Unlink(m, d) => self.unlink(m, d),
            Edit::Include(m) => self.include(m),
            Edit::Exclude(m) => self.exclude(m),
        }
    }
}
