ghost use Rattle.walks.specs.Walks.{OneOrder, OrderIsReach};

// What a walk takes is exactly what a path leads to, each once.
#[tactic(auto, using(crate::proofs::Reach::order_is_reach))]
pub fn order_is_reach()
    ensures { OrderIsReach }
{}

// The roots and what is taken before decide the order.
#[tactic(auto, using(crate::proofs::Reach::one_order))]
pub fn one_order()
    ensures { OneOrder }
{}
