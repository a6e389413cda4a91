ghost use Rattle.plans.specs.Accounts.{Extends};
ghost use Rattle.plans.specs.Book.{linking, unlinking, including, excluding};
ghost use Rattle.plans.specs.Edited.{EditedBy};
ghost use Rattle.plans.specs.Lawful.{mark_answer};
ghost use Rattle.reach.specs.Data.{panel_in};
ghost use Rattle.std.specs.Prelude.{◌≡◌};
ghost use Rattle.tables.specs.Panel.{count};

use crate::plan::Plan;
use stores::store::DependencyStore;
use tables::index::ModuleIdx;
use tables::refusal::Refusal;

// The work of the four edits: which entries an edit can concern is told before it is made. The public edits only call these, so that a wrong one is refused for its contract and not for a proof.
impl<S: DependencyStore> Plan<S> {
    pub(crate) fn add_pair(&mut self, m: ModuleIdx, d: ModuleIdx) -> Result<usize, Refusal>
        ensures edited { EditedBy S.modules S.loads S.outside (linking m.0 d.0) self.old result self.new }
        ensures lawful { Extends S.modules S.loads (linking m.0 d.0) self.old result self.new }
    {
        let concern = self.data.link_concern(m, d);
        self.store.link(m, d)?;
        Ok(self.data.renew(&self.store, concern))
    }

    pub(crate) fn strike_pair(&mut self, m: ModuleIdx, d: ModuleIdx) -> Result<usize, Refusal>
        ensures edited { EditedBy S.modules S.loads S.outside (unlinking m.0 d.0) self.old result self.new }
        ensures lawful { Extends S.modules S.loads (unlinking m.0 d.0) self.old result self.new }
    {
        let concern = self.data.unlink_concern(m, d);
        self.store.unlink(m, d)?;
        Ok(self.data.renew(&self.store, concern))
    }

    pub(crate) fn set_mark(&mut self, m: ModuleIdx) -> Result<usize, Refusal>
        ensures edited { EditedBy S.modules S.loads S.outside (including m.0) self.old result self.new }
        ensures lawful { Extends S.modules S.loads (including m.0) self.old result self.new }
    {
        self.find(m)?;
        let concern = self.data.include_concern(&self.store, m);
        self.data.put_mark(m, true);
        Ok(self.data.renew(&self.store, concern))
    }

    pub(crate) fn clear_mark(&mut self, m: ModuleIdx) -> Result<usize, Refusal>
        ensures edited { EditedBy S.modules S.loads S.outside (excluding m.0) self.old result self.new }
        ensures lawful { Extends S.modules S.loads (excluding m.0) self.old result self.new }
    {
        self.find(m)?;
        let concern = self.data.exclude_concern(m);
        self.data.put_mark(m, false);
        Ok(self.data.renew(&self.store, concern))
    }

    // Whether a module has this number.
    fn find(&self, m: ModuleIdx) -> Result<(), Refusal>
        ensures { result ≡ mark_answer (count (panel_in self.now.data)) m.0 }
    {
        if usize::from(m) < self.data.table().len() {
            Ok(())
        } else {
            Err(Refusal::ModuleOutOfRange)
        }
    }
}
