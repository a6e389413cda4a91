ghost use Rattle.std.specs.Prelude.{◌≡◌, ℕ, List};
ghost use Rattle.walks.specs.Walks.{Hands};

// What hands out the arcs of each of its nodes in order.
// `next` answers for any number: one that is no node has no arcs.
pub trait Arcs {
    ghost nodes: { Self → ℕ };

    // The targets still to come at a node from a cursor. From the cursor 0 come all.
    ghost rest: { Self → ℕ → ℕ → List ℕ };

    fn size(&self) -> usize
        ensures { result ≡ nodes self.now };

    // The next target at `node` from the cursor `at`, and the cursor after it.
    fn next(&self, node: usize, at: usize) -> Option<(usize, usize)>
        ensures { Hands (rest self.now node) (nodes self.now) at result };
}
