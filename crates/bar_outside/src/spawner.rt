//! Child programs.

/// Why a call of the spawner failed.
#[derive(Clone, Copy, Debug, PartialEq, Eq)]
pub enum ChildFault {
    /// The spawner refused the call. The fault count rose.
    Failed,
    NoMemory,
}

/// Starts child programs and waits for them. `children` represents what it did.
pub trait Spawner {
    ghost use Rattle.std.specs.Prelude.{◌<◌, length, map, string_bytes, IsTrue};
    ghost use Rattle.bar_outside.specs.Code.Children.{Children, IsRunning, Starts, Waits};

    ghost children: { Self → Children };

    /// Starts the program named by the first argument, with the remaining arguments, and returns the child's number. After a fault nothing
    /// was started.
    fn start(&mut self, words: &[String]) -> Result<usize, ChildFault>
        requires { 0 < length words.now }
        ensures { Starts (map string_bytes words.now) (children self.old) (children self.new) result };

    /// Waits for a child and returns the status with which it ended. Each child is waited for only once, even if the wait is refused.
    fn wait(&mut self, child: usize) -> Result<i32, ChildFault>
        requires { IsRunning child (children self.old).calls }
        ensures { Waits child (children self.old) (children self.new) result };
}
