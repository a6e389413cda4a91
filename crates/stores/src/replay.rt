ghost use Rattle.std.specs.Prelude.{◌≡◌, MatchResult};
ghost use Rattle.stores.specs.Judged.{Judged};
ghost use Rattle.stores.specs.Edits.{answer_to, pairs_with, answers_to, pairs_after};

use crate::edit::Edit;
use crate::store::DependencyStore;
use std::alloc::{AllocError, Global};
use tables::refusal::Refusal;

// Puts one edit onto a store: what it is answered, what that answer means, and what it leaves.
#[tactic(auto, using(crate::proofs::Judging::link_judged, crate::proofs::Judging::unlink_judged))]
pub fn apply<S: DependencyStore>(store: &mut S, edit: Edit) -> Result<(), Refusal>
    ensures answer { result ≡ answer_to (S.DependencyStore.modules store.old) (S.DependencyStore.loads store.old) edit }
    ensures judged { Judged (S.DependencyStore.modules store.old) (S.DependencyStore.loads store.old) edit result }
    ensures size { S.DependencyStore.modules store.new ≡ S.DependencyStore.modules store.old }
    ensures kept { S.DependencyStore.outside store.new ≡ S.DependencyStore.outside store.old }
    ensures pairs { S.DependencyStore.loads store.new ≡ pairs_with (S.DependencyStore.modules store.old) (S.DependencyStore.loads store.old) edit }
{
    match edit {
        Edit::Link(m, d) => store.link(m, d),
        Edit::Unlink(m, d) => store.unlink(m, d),
    }
}

// Puts edits onto a store one after another, and tells the answer of each. The answers, and the pairs that the store then holds, are by its size and pairs alone.
pub fn replay<S: DependencyStore>(
    heap: Global,
    store: &mut S,
    edits: &[Edit],
) -> Result<Vec<Result<(), Refusal>>, AllocError>
    ensures size { S.DependencyStore.modules store.new ≡ S.DependencyStore.modules store.old }
    ensures kept { S.DependencyStore.outside store.new ≡ S.DependencyStore.outside store.old }
    ensures answers { MatchResult result (λ v. v.items ≡ answers_to (S.DependencyStore.modules store.old) (S.DependencyStore.loads store.old) edits.now) (λ _. store.new ≡ store.old) }
    ensures pairs { MatchResult result (λ _. S.DependencyStore.loads store.new ≡ pairs_after (S.DependencyStore.modules store.old) (S.DependencyStore.loads store.old) edits.now) (λ _. store.new ≡ store.old) }
{
    let mut answers = Vec::with_capacity(heap, edits.len())?;
    for edit in edits {
        answers.push_reserved(apply(store, *edit));
    }
    Ok(answers)
}
