//! How a ledger keeps an admitted datagram.
ghost use Rattle.std.specs.Prelude.{◌≡◌, true, Some, None};
ghost use Rattle.bar_window.specs.declared.exchange.Role.TheVariants.{Initiator};
ghost use Rattle.bar_wire.specs.Datagram.{Datagram, kind_of, exchange_of, place_of};
ghost use Rattle.bar_rules.specs.Member.{Member, IsMember};
ghost use Rattle.bar_rules.specs.Peer.Knowledge.{Knowledge, with_heard};
ghost use Rattle.bar_ledger.specs.Code.Memory.{HasSame, MayHear};
ghost use Rattle.bar_ledger.specs.Code.Recalls.{Recalls};
ghost use Rattle.bar_exchange.specs.Code.Keeping.{IsAdmittedNow, HasRoomLeft, IsBegunWith, is_later};
ghost use Rattle.bar_exchange.specs.Code.Parts.{ChangesKept, asked_entry, with_heard_part};

use bar_ledger::{Entry, Ledger, opening_kind};
use bar_window::{Exchange, Role, Terms};
use bar_wire::Kind;

/// The entry of an exchange that this peer was asked for, before anything is said in it.
fn asked_entry(x: Exchange, seat: u8, terms: Terms) -> Entry
    ensures { result ≡ asked_entry x seat terms }
{
    Entry {
        x,
        role: Role::Responder,
        seat,
        terms,
        complete: false,
        first_said: false,
        case_said: false,
        key_said: false,
    }
}

/// Keeps a REQUEST or a QUERY with the terms that it begins, in the next free seat.
pub fn keep_request(ledger: &mut Ledger, x: Exchange, terms: Terms, bytes: &[u8])
    ensures learns { (me : Member) (k : Knowledge) (d : Datagram) → IsMember me → Recalls me k ledger.old → IsAdmittedNow me k d bytes.now
        → HasRoomLeft me k → k.seat x ≡ None → place_of d.message ≡ Some (record { exchange = x; role = Initiator })
        → IsBegunWith me d x terms → Recalls me (with_heard me d k) ledger.new }
    ensures same { HasSame ledger.old ledger.new }
{
    let Some(seat) = ledger.seat(x.round, x.kind) else {
        return;
    };
    if !ledger.has_room() {
        return;
    }
    if ledger.find(x).is_some() {
        return;
    }
    ledger.add(asked_entry(x, seat, terms));
    let kind = opening_kind(x.kind, Role::Initiator);
    if !ledger.may_hear(x, kind, bytes) {
        return;
    }
    ledger.hear(x, kind, bytes);
}

/// Keeps a datagram of an exchange, and the terms including the part that it contains.
pub fn keep_part(
    ledger: &mut Ledger,
    x: Exchange,
    kind: Kind,
    bytes: &[u8],
    terms: Terms,
    complete: bool,
)
    ensures changes { MayHear ledger.old x kind bytes.now
        → ChangesKept ledger.old ledger.new x (with_heard_part kind bytes.now terms complete) }
    ensures same { HasSame ledger.old ledger.new }
{
    if !ledger.may_hear(x, kind, bytes) {
        return;
    }
    ledger.hear(x, kind, bytes);
    let Some(entry) = ledger.find(x) else {
        unreachable!()
    };
    let entry = Entry {
        terms,
        complete,
        ..*entry
    };
    ledger.set(entry);
}

/// Keeps a CASE, a KEYREQ or a KEY of an exchange.
pub fn keep_later(ledger: &mut Ledger, x: Exchange, kind: Kind, bytes: &[u8])
    ensures learns { (me : Member) (k : Knowledge) (d : Datagram) → Recalls me k ledger.old → IsAdmittedNow me k d bytes.now
        → is_later kind ≡ true → kind ≡ kind_of d.message.body → exchange_of d.message ≡ Some x
        → Recalls me (with_heard me d k) ledger.new }
    ensures same { HasSame ledger.old ledger.new }
{
    if !ledger.may_hear(x, kind, bytes) {
        return;
    }
    ledger.hear(x, kind, bytes);
}
