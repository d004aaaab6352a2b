/// The position of a step in a run: the task, the task's call, and the step of that call, each
/// counted from 0.
#[derive(Clone, Copy)]
pub struct Who {
    /// The task's number.
    pub task: u32,
    /// The number of the call among the task's calls.
    pub call: u32,
    /// The number of the step within the call.
    pub step: u32,
}
