//! How a ledger records the messages that this peer says.
ghost use Rattle.std.specs.Prelude.{◌≡◌, true, false, Some, None, is_some, option_map};
ghost use Rattle.bar_window.specs.declared.exchange.Role.TheVariants.{Initiator, Responder};
ghost use Rattle.bar_wire.specs.Datagram.{Datagram};
ghost use Rattle.bar_wire.specs.declared.kind.Kind.TheVariants.{Case, Key};
ghost use Rattle.bar_rules.specs.Member.{Member};
ghost use Rattle.bar_rules.specs.Peer.Agreement.{IsRecent};
ghost use Rattle.bar_rules.specs.Peer.Exchanges.{role_of, request_kind, answer_kind};
ghost use Rattle.bar_rules.specs.Peer.Knowledge.{Knowledge, has_said_of, with_said};
ghost use Rattle.bar_rules.specs.Peer.Terms.{terms_of};
ghost use Rattle.bar_ledger.specs.Code.Memory.{find_in, bytes_in, HasSame};
ghost use Rattle.bar_ledger.specs.Code.Recalls.{Recalls};
ghost use Rattle.bar_ledger.specs.declared.entry.Entry.{Entry};
ghost use Rattle.bar_exchange.specs.Code.Answering.{telling_kind, IsAnsweredWith};
ghost use Rattle.bar_exchange.specs.Code.Keeping.{IsSaidNow, HasRoomLeft, IsBegunWith, IsCommittedTo};

use bar_ledger::{Entry, Ledger};
use bar_window::{Exchange, Role, Terms, XKind};
use bar_wire::Kind;

/// Records that this peer asks for an exchange, with the part of the terms in its REQUEST or QUERY.
pub fn ask(ledger: &mut Ledger, x: Exchange, terms: Terms)
    ensures learns { (me : Member) (k : Knowledge) (d : Datagram) → Recalls me k ledger.old → IsSaidNow me k d (request_kind x.kind) x
        → role_of me x ≡ Initiator → HasRoomLeft me k → IsBegunWith me d x terms → IsCommittedTo me k x terms
        → Recalls me (with_said me d k) ledger.new }
    ensures same { HasSame ledger.old ledger.new }
{
    if !ledger.has_room() || ledger.find(x).is_some() {
        return;
    }
    ledger.add(Entry {
        x,
        role: Role::Initiator,
        seat: 0,
        terms,
        complete: false,
        first_said: true,
        case_said: false,
        key_said: false,
    });
}

/// Whether this peer, as the responder, knows the initiator's part of the terms.
fn is_told(ledger: &Ledger, x: Exchange) -> bool
    ensures { result ≡ is_some (bytes_in ledger.now x (telling_kind x.kind)) }
{
    let kind = match x.kind {
        XKind::Balanced => Kind::Divulge,
        XKind::Push => Kind::Query,
    };
    ledger.heard(x, kind).is_some()
}

/// Records that this peer answers a request, with the kept terms as its RESPONSE or REPLY completes them.
pub fn answer(ledger: &mut Ledger, x: Exchange, terms: Terms)
    ensures learns { (me : Member) (k : Knowledge) (d : Datagram) (e : Entry) → Recalls me k ledger.old
        → IsSaidNow me k d (answer_kind x.kind) x → role_of me x ≡ Responder
        → Some e ≡ option_map (λ kept. kept.entry) (find_in ledger.old x) → IsAnsweredWith me d x e.terms terms
        → Recalls me (with_said me d k) ledger.new }
    ensures same { HasSame ledger.old ledger.new }
{
    let complete = is_told(ledger, x);
    let Some(entry) = ledger.find(x) else {
        return;
    };
    let answered = Entry {
        terms,
        complete,
        first_said: true,
        ..*entry
    };
    ledger.set(answered);
}

/// If the terms of an exchange are complete and this peer said its first message, records that it says its CASE. Returns whether it does.
pub fn say_case(ledger: &mut Ledger, x: Exchange) -> bool
    ensures learns { (me : Member) (k : Knowledge) (d : Datagram) → Recalls me k ledger.old → IsSaidNow me k d Case x
        → is_some (terms_of me k x) ≡ true → (result ≡ true) × Recalls me (with_said me d k) ledger.new }
    ensures without { (me : Member) (k : Knowledge) → Recalls me k ledger.old → IsRecent me k x.round → terms_of me k x ≡ None
        → (result ≡ false) × (ledger.new ≡ ledger.old) }
    ensures same { HasSame ledger.old ledger.new }
{
    let Some(entry) = ledger.find(x) else {
        return false;
    };
    if !entry.complete || !entry.first_said {
        return false;
    }
    let said = Entry {
        case_said: true,
        ..*entry
    };
    ledger.set(said);
    true
}

/// If an exchange is kept, records that this peer says its KEY. Returns whether it does.
pub fn say_key(ledger: &mut Ledger, x: Exchange) -> bool
    ensures learns { (me : Member) (k : Knowledge) (d : Datagram) → Recalls me k ledger.old → IsSaidNow me k d Key x
        → has_said_of k Case x (role_of me x) ≡ true → (result ≡ true) × Recalls me (with_said me d k) ledger.new }
    ensures same { HasSame ledger.old ledger.new }
{
    let Some(entry) = ledger.find(x) else {
        return false;
    };
    let said = Entry {
        key_said: true,
        ..*entry
    };
    ledger.set(said);
    true
}
