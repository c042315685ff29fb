//! How a ledger records the requests and answers that this peer says.
ghost use Rattle.std.specs.Prelude.{◌≡◌, ◌+◌, ◌≤◌, ℕ, List, Some, None, true, false, option_and_then};
ghost use Rattle.bar_window.specs.declared.exchange.Role.TheVariants.{Initiator};
ghost use Rattle.bar_window.specs.declared.update.UpdateId.{UpdateId};
ghost use Rattle.bar_wire.specs.Bodies.{offer_in};
ghost use Rattle.bar_wire.specs.Datagram.{Datagram};
ghost use Rattle.bar_wire.specs.Datagram as bodies;
ghost use Rattle.bar_wire.specs.declared.kind.Kind.TheVariants.{Query, Reply};
ghost use Rattle.bar_rules.specs.Member.{Member};
ghost use Rattle.bar_rules.specs.Peer.Choices.{young_of, aged_of};
ghost use Rattle.bar_rules.specs.Peer.Knowledge.{Knowledge, this_round, answer_deadline, with_said};
ghost use Rattle.bar_rules.specs.Peer.Orders.{reply_to};
ghost use Rattle.bar_rules.specs.Peer.Terms.{body_on};
ghost use Rattle.bar_store.specs.Code.Holds.{Holds};
ghost use Rattle.bar_ledger.specs.Code.Memory.{HasSame};
ghost use Rattle.bar_ledger.specs.Code.Recalls.{Recalls};
ghost use Rattle.bar_exchange.specs.Code.Keeping.{IsSaidNow, HasRoomLeft};

use crate::choosing::answer_to_offer;
use bar_exchange::{answer, ask};
use bar_ledger::Ledger;
use bar_store::Store;
use bar_terms::PushAnswer;
use bar_window::{Exchange, Terms};

/// Records that this peer says its QUERY, with the young updates that it holds and the aged ones that it lacks.
pub fn say_query(ledger: &mut Ledger, store: &Store, x: Exchange)
    ensures learns { (me : Member) (k : Knowledge) (d : Datagram) (seed : List ℕ) → Holds me k store.now → Recalls me k ledger.old
        → IsSaidNow me k d Query x → d.message.body ≡ bodies.Query x.round seed (young_of me k x.round) (aged_of me k x.round)
        → HasRoomLeft me k → this_round k ≤ x.round + answer_deadline → Recalls me (with_said me d k) ledger.new }
    ensures same { HasSame ledger.old ledger.new }
{
    let cap = ledger.cap();
    let young = store.young(x.round).first(cap);
    let last = x.round.saturating_sub(u32::from(store.life() / 2));
    let aged = store.lacking(x.round, last).first(cap);
    let none = young.first(0);
    let terms = Terms::Push {
        young,
        aged,
        want: none,
        give: none,
        junk: 0,
    };
    ask(ledger, x, terms);
}

/// If this peer wants something of the offer in a QUERY, records that it says its REPLY, with what it wants and gives. Returns whether it
/// does.
pub fn say_reply(ledger: &mut Ledger, store: &Store, x: Exchange) -> bool
    ensures learns { (me : Member) (k : Knowledge) (d : Datagram) (q : List UpdateId × List UpdateId) → Holds me k store.now
        → Recalls me k ledger.old → IsSaidNow me k d Reply x → option_and_then offer_in (body_on me k Query x Initiator) ≡ Some q
        → reply_to me k x.round q ≡ Some d.message.body → this_round k ≤ x.round + answer_deadline
        → (result ≡ true) × Recalls me (with_said me d k) ledger.new }
    ensures without { (me : Member) (k : Knowledge) (q : List UpdateId × List UpdateId) → Holds me k store.now → Recalls me k ledger.old
        → option_and_then offer_in (body_on me k Query x Initiator) ≡ Some q → reply_to me k x.round q ≡ None
        → this_round k ≤ x.round + answer_deadline → (result ≡ false) × (ledger.new ≡ ledger.old) }
    ensures same { HasSame ledger.old ledger.new }
{
    let Some(entry) = ledger.find(x) else {
        return false;
    };
    let Terms::Push { young, aged, .. } = entry.terms else {
        return false;
    };
    let made = answer_to_offer(store, &young, &aged, ledger.cap(), x.round);
    let PushAnswer { want, give, junk } = made;
    if want.size() == 0 {
        return false;
    }
    let terms = Terms::Push {
        young,
        aged,
        want,
        give,
        junk,
    };
    answer(ledger, x, terms);
    true
}
