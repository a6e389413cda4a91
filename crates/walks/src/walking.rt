ghost use Rattle.std.specs.Prelude.{◌≡◌, ℕ, ◌<◌, true, false, [], ◌∷◌, ◌++◌, length, if◌then◌else◌, Decides, IfOk, vec_len, slice_index_or, slice_set};
ghost use Rattle.walks.specs.Walks.{has, Walk, Tour};
ghost use Rattle.walks.specs.Walkers.{size_of, taken_by, Fit, Walked};

use crate::arcs::Arcs;
use crate::walker::Walker;
use std::alloc::{AllocError, Global};

impl Walker {
    // A walker for a number of nodes, with none taken.
    #[tactic(auto, using(crate::proofs::Steps::blank_is))]
    pub fn new(heap: Global, nodes: usize) -> Result<Walker, AllocError>
        ensures { IfOk result (λ w. (size_of w ≡ nodes) × (taken_by w ≡ [])) }
    {
        let order = Vec::with_capacity(heap, nodes)?;
        let marks = vec![in heap; false; nodes]?;
        let stack = Vec::with_capacity(heap, nodes)?;
        Ok(Walker {
            order,
            marks,
            stack,
        })
    }

    // Walks from each of `roots` in turn, depth first along the arcs, and answers how many nodes are taken.
    // No answer where a root is no node or the arcs have another size than the walker.
    pub fn walk<G: Arcs>(&mut self, arcs: &G, roots: &[usize]) -> Option<usize>
        ensures size { size_of self.new ≡ size_of self.old }
        ensures toured { Walked (G.Arcs.nodes arcs.now) (λ x. G.Arcs.rest arcs.now x 0) roots.now self.old self.new result }
    {
        if !self.fits(arcs, roots) {
            return None;
        }
        self.tour(arcs, roots);
        Some(self.order.len())
    }

    // Whether the last walk took `node`.
    pub fn has_taken(&self, node: usize) -> bool
        ensures { result ≡ has (taken_by self.now) node }
    {
        self.marks.get(node).copied().unwrap_or(false)
    }

    // What the last walk took, in the order of taking.
    pub fn order(&self) -> &[usize]
        ensures { result.now ≡ taken_by self.now }
    {
        &self.order
    }

    // Whether the roots are nodes and the arcs have the walker's size.
    fn fits<G: Arcs>(&self, arcs: &G, roots: &[usize]) -> bool
        ensures { Decides result (Fit (G.Arcs.nodes arcs.now) roots.now (size_of self.now)) }
    {
        let nodes = self.marks.len();
        nodes == arcs.size() && roots.iter().all(|root| *root < nodes)
    }

    // As `walk`, where the roots and the walker fit the arcs. Apart from it, so that a walk from other roots is refused for the promise.
    #[tactic(auto, using(crate::proofs::Reach::toured))]
    fn tour<G: Arcs>(&mut self, arcs: &G, roots: &[usize])
        requires { Fit (G.Arcs.nodes arcs.now) roots.now (size_of self.old) }
        ensures size { size_of self.new ≡ size_of self.old }
        ensures tour { Tour (λ x. G.Arcs.rest arcs.now x 0) roots.now (taken_by self.new) }
    {
        self.clear();
        for root in roots {
            self.walk_from(arcs, *root);
        }
    }

    // Takes all that was taken away.
    #[tactic(auto, using(crate::proofs::Steps::blank_is))]
    fn clear(&mut self)
        ensures size { size_of self.new ≡ size_of self.old }
        ensures none { taken_by self.new ≡ [] }
        ensures idle { vec_len self.new.stack ≡ 0 }
    {
        self.order.clear();
        self.marks.fill(false);
        self.stack.clear();
    }

    // Takes what is not yet taken of the nodes to which a path leads from `root`, depth first.
    fn walk_from<G: Arcs>(&mut self, arcs: &G, root: usize)
        requires root { root < G.Arcs.nodes arcs.now }
        requires sized { size_of self.old ≡ G.Arcs.nodes arcs.now }
        requires idle { vec_len self.old.stack ≡ 0 }
        ensures size { size_of self.new ≡ size_of self.old }
        ensures idle { vec_len self.new.stack ≡ 0 }
        ensures walk { Walk (λ x. G.Arcs.rest arcs.now x 0) (root ∷ []) (taken_by self.old) (taken_by self.new) }
    {
        self.enter(root);
        while let Some(top) = self.stack.last_mut() {
            let (node, at) = *top;
            match arcs.next(node, at) {
                None => {
                    self.stack.pop();
                }
                Some((target, after)) => {
                    advance(top, after);
                    self.enter(target);
                }
            }
        }
    }

    // Takes `node` unless it is taken already: marks it and puts it into the order and, with the cursor 0, onto the stack.
    #[tactic(auto, using(crate::proofs::Steps::room))]
    fn enter(&mut self, node: usize)
        requires { node < size_of self.old }
        ensures size { size_of self.new ≡ size_of self.old }
        ensures marks { self.new.marks.items ≡ (if slice_index_or self.old.marks.items node false then self.old.marks.items else slice_set self.old.marks.items node true) }
        ensures order { self.new.order.items ≡ (if slice_index_or self.old.marks.items node false then self.old.order.items else self.old.order.items ++ node ∷ []) }
        ensures stack { self.new.stack.items ≡ (if slice_index_or self.old.marks.items node false then self.old.stack.items else self.old.stack.items ++ (node, 0) ∷ []) }
    {
        if !self.marks[node] {
            set(&mut self.marks[node]);
            self.order.push_reserved(node);
            self.stack.push_reserved((node, 0));
        }
    }
}

// Moves the cursor of a node of the path. It and the next are apart from their callers, so that what they leave out is refused for what they promise.
fn advance(top: &mut (usize, usize), after: usize)
    ensures { top.new ≡ (top.old.0, after) }
{
    top.1 = after;
}

fn set(mark: &mut bool)
    ensures { mark.new ≡ true }
{
    *mark = true;
}
