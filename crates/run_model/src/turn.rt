/// The effect of a turn on its task.
#[derive(Clone, Copy)]
pub enum Turn {
    /// The task made a step.
    Moved,
    /// The task's step can't be made now.
    Blocked,
    /// The task's program was over.
    Done,
}
