// What a stage of a run came to.
use crate::ending::Ending;

/// What a stage hands on to the next one, or the end of the run.
#[derive(Drop)]
pub enum Stage<T> {
    /// The next stage goes on with it.
    Go(T),
    /// The run ends so.
    Stop(Ending),
}
