/// A call that an in-memory spawner accepted.
#[derive(Debug, PartialEq, Eq, Drop)]
pub enum MemCall {
    /// A child was started with these arguments.
    Started { words: Vec<String>, child: usize },
    /// A child was waited for. It ended with this status, or with none if the wait was refused.
    Waited { child: usize, status: Option<i32> },
}
