//! How a ledger records the requests and answers that this peer says.
ghost use Rattle.std.specs.Prelude.{◌≡◌, ◌+◌, ◌≤◌, true};
ghost use Rattle.bar_window.specs.declared.exchange.Role.TheVariants.{Initiator};
ghost use Rattle.bar_window.specs.declared.exchange.XKind.TheVariants.{Balanced};
ghost use Rattle.bar_wire.specs.Datagram.{Datagram};
ghost use Rattle.bar_wire.specs.Datagram as bodies;
ghost use Rattle.bar_wire.specs.declared.kind.Kind.TheVariants.{Request, Response};
ghost use Rattle.bar_rules.specs.Member.{Member};
ghost use Rattle.bar_rules.specs.Secrets.{secrets_of};
ghost use Rattle.bar_rules.specs.Peer.Exchanges.{role_of};
ghost use Rattle.bar_rules.specs.Peer.Holdings.{history};
ghost use Rattle.bar_rules.specs.Peer.Knowledge.{Knowledge, this_round, answer_deadline, has_heard_of, with_said};
ghost use Rattle.bar_store.specs.Code.Holds.{Holds};
ghost use Rattle.bar_ledger.specs.Code.Memory.{HasSame};
ghost use Rattle.bar_ledger.specs.Code.Recalls.{Recalls};
ghost use Rattle.bar_exchange.specs.Code.Keeping.{IsSaidNow, HasRoomLeft};

use bar_exchange::{answer, ask};
use bar_ledger::Ledger;
use bar_seeds::Secrets;
use bar_store::Store;
use bar_window::{Exchange, Terms};

/// Records that this peer says its REQUEST of an exchange, in which it commits to its nonce and to the updates that it holds.
pub fn say_request(ledger: &mut Ledger, store: &Store, secrets: &Secrets, x: Exchange)
    ensures learns { (me : Member) (k : Knowledge) (d : Datagram) → Holds me k store.now → Recalls me k ledger.old
        → secrets.now ≡ secrets_of me → IsSaidNow me k d Request x → x.kind ≡ Balanced → role_of me x ≡ Initiator → HasRoomLeft me k
        → this_round k ≤ x.round + answer_deadline → Recalls me (with_said me d k) ledger.new }
    ensures same { HasSame ledger.old ledger.new }
{
    let ha = store.history(x.round);
    let terms = Terms::Balanced {
        nonce: secrets.nonce(x),
        ha,
        hb: ha.first(0),
    };
    ask(ledger, x, terms);
}

/// Records that this peer says its RESPONSE to a request, with the updates that it holds.
pub fn say_response(ledger: &mut Ledger, store: &Store, x: Exchange)
    ensures learns { (me : Member) (k : Knowledge) (d : Datagram) → Holds me k store.now → Recalls me k ledger.old
        → IsSaidNow me k d Response x → d.message.body ≡ bodies.Response x.round (history me.session k.block x.round)
        → has_heard_of k Request x Initiator ≡ true → this_round k ≤ x.round + answer_deadline
        → Recalls me (with_said me d k) ledger.new }
    ensures same { HasSame ledger.old ledger.new }
{
    let Some(entry) = ledger.find(x) else {
        return;
    };
    let Terms::Balanced { nonce, ha, .. } = entry.terms else {
        return;
    };
    let hb = store.history(x.round);
    answer(ledger, x, Terms::Balanced { nonce, ha, hb });
}
