use bar_outside::Fault;

/// The destination of a run's datagrams: a link or a transcript. The target is a part of the outside.
pub trait Outlet<T> {
    ghost use Rattle.std.specs.Prelude.{◌≡◌, ℕ, List};
    ghost use Rattle.bar_outside.specs.Disk.{Disk};
    ghost use Rattle.bar_outside.specs.Plan.{Action, Outside, with_files};
    ghost use Rattle.bar_outside.specs.Code.Follows.{Follows};
    ghost use Rattle.bar_core.specs.Rules.{Send};

    /// The outside with its part replaced by this target.
    ghost placed: { Outside → T → Outside };

    /// The actions that give out a datagram of the input with this number.
    ghost given: { ℕ → Send → List Action };

    /// Gives out a datagram of the input with this number.
    fn give(&self, target: &mut T, number: u64, to: u16, datagram: &[u8]) -> Result<(), Fault>
        ensures { (w : Outside) → Follows (given number (to, datagram.now)) (placed w target.old) (placed w target.new) result };

    /// The target is independent of the files.
    ghost apart: { (w : Outside) (files : Disk) (target : T) → placed (with_files w files) target ≡ with_files (placed w target) files };
}
