//! Windows of updates for the tests of promises and briefcases.

ghost use Rattle.std.specs.Prelude.{◌≡◌, false};
ghost use Rattle.bar_window.specs.Code.Window.{IsWindowOf};

use bar_window::{UpdateId, Window};
use std::process::Abort;

/// Some updates of the window of round 6, in a session with a life of four rounds.
pub fn window_with(rt: &impl Abort, ids: &[(u32, u8)]) -> Window
    ensures rounds { IsWindowOf 4 6 result }
    ensures wide { result.wide ≡ false }
{
    let mut window = Window::empty(6, 4, false);
    for (round, index) in ids {
        assert!(rt; 3 <= *round && *round <= 6 && *index < 64);
        window.put(UpdateId {
            round: *round,
            index: *index,
        });
    }
    window
}
