use crate::ask::Ask;
use crate::reply::Reply;

/// A call between two steps.
#[derive(Clone, Copy)]
pub struct Due {
    /// The step that the call makes next.
    pub ask: Ask,
    /// The reply that comes with the call's last step, unless a later step decides another.
    pub reply: Reply,
}

/// The effect of a step on its call.
#[derive(Clone, Copy)]
pub enum Next {
    /// The call makes another step.
    On(Due),
    /// The call is answered.
    Over(Reply),
}
