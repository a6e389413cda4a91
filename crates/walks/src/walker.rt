ghost use Rattle.std.specs.Prelude.{◌≤◌, vec_len, vec_capacity};
ghost use Rattle.walks.specs.Walks.{Marked};

// What the last walk over a number of nodes took, a mark for each node that tells whether it did, and the nodes of the walk's path, each with a cursor.
// There is room for every node: no walk needs more memory.
#[derive(Drop)]
pub struct Walker {
    pub(crate) order: Vec<usize>,
    pub(crate) marks: Vec<bool>,
    pub(crate) stack: Vec<(usize, usize)>,
    ghost marked: { Marked (vec_len marks) order.items marks.items },
    ghost order_room: { vec_len marks ≤ vec_capacity order },
    ghost stack_room: { vec_len marks ≤ vec_capacity stack },
    ghost stack_taken: { vec_len stack ≤ vec_len order },
}
