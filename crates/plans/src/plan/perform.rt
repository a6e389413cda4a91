ghost use Rattle.std.specs.Prelude.{◌++◌};
ghost use Rattle.tables.specs.Graph.{Graph};
ghost use Rattle.tables.specs.Panel.{Panel};
ghost use Rattle.plans.specs.Accounts.{Accounts};
ghost use Rattle.plans.specs.Book.{History};
ghost use Rattle.plans.specs.Runs.{Asked};

use crate::plan::{Edit, Plan};
use stores::store::DependencyStore;

impl<S: DependencyStore> Plan<S> {
    // Makes the edits in turn, whatever each is answered: from any history that the plan accounts for it comes to one with calls for just these edits on top.
    pub fn perform(&mut self, edits: &[Edit])
        ensures { (p : Panel) (g : Graph) (h : History) → Accounts S.modules S.loads p g h self.old → (t : History) × (Asked edits.now t × Accounts S.modules S.loads p g (t ++ h) self.new) }
    {
        self.make_all(edits);
    }

    // Apart from `perform`, so that edits that are left out there are refused for the promise.
    fn make_all(&mut self, edits: &[Edit])
        ensures { (p : Panel) (g : Graph) (h : History) → Accounts S.modules S.loads p g h self.old → (t : History) × (Asked edits.now t × Accounts S.modules S.loads p g (t ++ h) self.new) }
    {
        for e in edits {
            let _ = self.edit(*e);
        }
    }
}
