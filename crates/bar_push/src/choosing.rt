//! What a responder wants and gives, depending on what it holds.
ghost use Rattle.std.specs.Prelude.{◌≡◌, ◌+◌, ◌≤◌, ◌↔◌, IsTrue};
ghost use Rattle.bar_window.specs.Code.Window.{members, IsWindowOf};
ghost use Rattle.bar_wire.specs.Code.Views.{IsWindowIn};
ghost use Rattle.bar_wire.specs.declared.shape.Shape.{Shape};
ghost use Rattle.bar_rules.specs.Member.{Member};
ghost use Rattle.bar_rules.specs.Peer.Knowledge.{Knowledge, this_round, answer_deadline};
ghost use Rattle.bar_store.specs.Code.Holds.{Holds};
ghost use Rattle.bar_push.specs.Code.Chosen.{IsAnswerTo};

use bar_exchange::is_window_of;
use bar_store::Store;
use bar_terms::{PushAnswer, push_answer};
use bar_window::Window;

/// Whether a window is one of the store's, of a round.
fn is_of(store: &Store, window: &Window, round: u32) -> bool
    ensures { IsTrue result ↔ (IsWindowOf store.now.life round window.now × (window.now.wide ≡ store.now.wide)) }
{
    is_window_of(window, store.life(), round) && window.wide == store.wide()
}

/// The answer to an offer of a round. It wants the first `cap` of the young updates that are missing. It gives the first of the aged ones
/// that are held, at most as many, and junk for the rest. If a window isn't that of the round, nothing is wanted.
pub fn answer_to_offer(
    store: &Store,
    young: &Window,
    aged: &Window,
    cap: u8,
    round: u32,
) -> PushAnswer
    ensures known { (me : Member) (k : Knowledge) → Holds me k store.now → cap ≡ me.session.cap → this_round k ≤ round + answer_deadline
        → IsWindowIn me.session.shape round young.now → IsWindowIn me.session.shape round aged.now
        → IsAnswerTo me k (members young.now) (members aged.now) result }
    ensures windows { (shape : Shape) → IsWindowIn shape round young.now → IsWindowIn shape round aged.now
        → IsWindowIn shape round result.want × IsWindowIn shape round result.give }
{
    if !is_of(store, young, round) || !is_of(store, aged, round) {
        return PushAnswer {
            want: young.first(0),
            give: aged.first(0),
            junk: 0,
        };
    }
    push_answer(young, aged, &store.history(round), cap)
}
