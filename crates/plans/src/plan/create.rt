ghost use Rattle.std.specs.Prelude.{◌≡◌};
ghost use Rattle.tables.specs.View.{panel_of};
ghost use Rattle.plans.specs.Created.{creation_answer, cause_of, AnswersCreation, SizedJudged, CreationJudged, Made};

use crate::plan::{Plan, Rejected};
use exports::export::{BuildError, Export};
use reach::data::PlanData;
use std::alloc::Global;
use stores::store::DependencyStore;
use tables::refusal::Refusal;

impl<S: DependencyStore> Plan<S> {
    // A plan of an export over a store, with the pairs as they are. All the memory that the plan will ever need is taken here.
    pub fn create(heap: Global, export: Export, store: S) -> Result<Plan<S>, Rejected<S>>
        ensures answer { AnswersCreation (creation_answer (panel_of export.table) (S.modules store)) (cause_of result) }
        ensures judged { CreationJudged (panel_of export.table) (S.modules store) (cause_of result) }
        ensures made { Made S.modules S.loads export store result }
    {
        Self::made_of(heap, export, store)
    }

    // Apart from `create`, so that a wrong answer there is refused for the promise. No `?`, since each refusal gives export and store back.
    fn made_of(heap: Global, export: Export, store: S) -> Result<Plan<S>, Rejected<S>>
        ensures answer { AnswersCreation (creation_answer (panel_of export.table) (S.modules store)) (cause_of result) }
        ensures judged { CreationJudged (panel_of export.table) (S.modules store) (cause_of result) }
        ensures made { Made S.modules S.loads export store result }
    {
        if let Err(why) = judge(&export, &store) {
            return Err(Rejected {
                why: BuildError::Refused(why),
                export,
                store,
            });
        }
        match PlanData::new(heap, export) {
            Ok(data) => {
                let mut data = data;
                data.settle(&store);
                Ok(Plan { store, data })
            }
            Err(export) => Err(Rejected {
                why: BuildError::OutOfMemory,
                export,
                store,
            }),
        }
    }
}

// Whether a plan may be made of an export over a store, or the smallest refusal.
fn judge<S: DependencyStore>(export: &Export, store: &S) -> Result<(), Refusal>
    ensures answer { result ≡ creation_answer (panel_of export.now.table) (S.DependencyStore.modules store.now) }
    ensures judged { SizedJudged (panel_of export.now.table) (S.DependencyStore.modules store.now) result }
{
    export.check()?;
    if store.size() == export.table.len() {
        Ok(())
    } else {
        Err(Refusal::StoreSize)
    }
}
