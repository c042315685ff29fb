//! The datagrams that a peer gives out.
ghost use Rattle.std.specs.Prelude.{◌≡◌, ◌<◌, ◌≤◌, ℕ, List, [], Some, IfSome, MatchOption, length, option_copied, take, unwrap_or};
ghost use Rattle.bar_wire.specs.Datagram.{Datagram};
ghost use Rattle.bar_wire.specs.Limits.{largest_datagram};
ghost use Rattle.bar_ledger.specs.Code.Lookups.{seat_of};
ghost use Rattle.bar_wire.specs.declared.kind.Kind.TheVariants as kinds;
ghost use Rattle.bar_rules.specs.Values.{datagram_bytes, message_bytes};
ghost use Rattle.bar_rules.specs.Peer.Agreement.{IsRecent};
ghost use Rattle.bar_rules.specs.Peer.Knowledge.{Knowledge};
ghost use Rattle.bar_rules.specs.Peer.Signing.{leaf_for};
ghost use Rattle.bar_rules.specs.Peer.Writing.{body_now};
ghost use Rattle.bar_exchange.specs.Code.Writing.{CanWrite, IsWritten, LeavesRest, largest_message};
ghost use Rattle.bar_peer.specs.Code.Cases.{AreCasesNow};
ghost use Rattle.bar_peer.specs.Code.Giving.{IsDue, IsOrderDue, IsSignedFor, receiver_of};
ghost use Rattle.bar_peer.specs.declared.order.Order.TheVariants as orders;
ghost use Rattle.bar_rules.specs.Code.Giving.{IsGiven};
ghost use Rattle.bar_peer.specs.Code.Memory.{member_of, IsMemoryOf};
ghost use Rattle.bar_core.specs.Code.Orders.{left_in};
ghost use Rattle.bar_peer.specs.Code.StandsFor.{Inputs, StandsFor, AreLeft};
ghost use Rattle.bar_rules.specs.Code.Giving.{GivesNext};

use crate::cases::Cases;
use crate::memory::Memory;
use crate::order::Order;
use crate::peer::Peer;
use bar_bytes::put;
use bar_exchange::{Say, Sources};
use bar_laws::leaves::leaf_discipline;
use bar_laws::memories::logs_are_sound;
use bar_laws::obedience::signed_by_rule;
use bar_laws::rewriting::what_was_said_is_written_again;
use bar_laws::rooms::evidence_fits_its_room;
use bar_ledger::Ledger;
use bar_seal::{Scheme, leaf_for};
use bar_window::{Exchange, Role, XKind};
use bar_wire::{BROADCASTER, Kind, SEATS_A_ROUND};

/// The responder's seat in an exchange, or 0 if it has none.
fn seat_of(ledger: &Ledger, x: Exchange) -> u8
    ensures { result ≡ unwrap_or (seat_of ledger.now x) 0 }
{
    match ledger.find(x) {
        Some(entry) => match entry.role {
            Role::Initiator => 0,
            Role::Responder => entry.seat,
        },
        None => 0,
    }
}

impl Memory {
    /// Writes the message of an order, without its signature, to the start of a buffer, and returns its length.
    fn write(&self, say: Say, buf: &mut [u8]) -> Option<usize>
        requires room { largest_datagram ≤ length buf.old }
        ensures written { (k : Knowledge) → IsMemoryOf (member_of self.now.who) k self.now
            → IsRecent (member_of self.now.who) k say.x.round → CanWrite (member_of self.now.who) k say.kind say.x
            → IsWritten (member_of self.now.who) say.x (body_now (member_of self.now.who) k say.kind say.x) result buf.new }
        ensures front { LeavesRest buf.old result buf.new }
    {
        let sources = Sources {
            session: &self.who.session,
            secrets: &self.who.secrets,
            chain: &self.who.chain,
            ledger: &self.ledger,
            store: &self.store,
        };
        match say.x.kind {
            XKind::Balanced => bar_balanced::write(&sources, say.kind, say.x, buf),
            XKind::Push => bar_push::write(&sources, say.kind, say.x, buf),
        }
    }

    /// The leaf that signs the message of an order, or `None` if the round isn't one of the session or the seat isn't one of a round.
    fn leaf(&self, say: Say) -> Option<u32>
        ensures { (k : Knowledge) (d : Datagram) → IsMemoryOf (member_of self.now.who) k self.now
            → IsRecent (member_of self.now.who) k say.x.round → IsSignedFor (member_of self.now.who) k say d
            → result ≡ Some (leaf_for k d.message) }
    {
        let x = say.x;
        let shape = self.who.session.shape();
        if x.round == 0 || x.round > shape.rounds {
            return None;
        }
        let seat = seat_of(&self.ledger, x);
        if u32::from(seat) >= SEATS_A_ROUND {
            return None;
        }
        Some(leaf_for(say.kind, x, self.ledger.side(x), seat))
    }
}

/// The exchange of an order, if the order sends a CASE.
fn case_of(order: Order) -> Option<Exchange>
    ensures { IfSome result (λ x. order ≡ orders.Say (record { kind = kinds.Case; x = x })) }
{
    match order {
        Order::Say(
            Say {
                kind: Kind::Case,
                x,
            },
        ) => Some(x),
        _ => None,
    }
}

/// If an order sends a CASE, keeps its datagram: the first `len` bytes of the buffer.
fn keep_case(memory: &Memory, cases: &mut Cases, order: Order, buf: &[u8], len: usize)
    requires cases { AreCasesNow memory.now cases.old }
    requires given { (k : Knowledge) (d : Datagram) → IsMemoryOf (member_of memory.now.who) k memory.now
        → IsOrderDue (member_of memory.now.who) k order d → IsGiven memory.now.who.session d (Some len) buf.now }
    ensures { AreCasesNow memory.now cases.new }
{
    let Some(x) = case_of(order) else {
        return;
    };
    if len > buf.len() {
        return;
    }
    let (datagram, _) = buf.split_at(len);
    cases.keep(memory.room(x), x, datagram);
}

impl Memory {
    /// The number of the room for the CASE of an exchange. Exchanges whose CASEs are signed with different leaves have different numbers.
    fn room(&self, x: Exchange) -> usize {
        let case = Say {
            kind: Kind::Case,
            x,
        };
        match self.leaf(case) {
            Some(leaf) => leaf as usize / 3,
            None => 0,
        }
    }

    /// The receiver of an order's datagram.
    fn receiver(&self, order: Order) -> u16
        ensures { result ≡ receiver_of (member_of self.now.who) order }
    {
        match order {
            Order::Say(say) => self.partner_in(say.x),
            Order::Report(_) => BROADCASTER,
        }
    }
}

impl<S: Scheme> Peer<S> {
    /// If the kind is signed, appends the signature to the message, and returns the length of both; else the message's length.
    fn sign(&self, say: Say, len: usize, buf: &mut [u8]) -> Option<usize>
        requires room { largest_datagram ≤ length buf.old }
        requires short { len ≤ largest_message }
        ensures { (k : Knowledge) (d : Datagram) → IsMemoryOf (member_of self.now.memory.who) k self.now.memory
            → IsDue (member_of self.now.memory.who) k say d
            → take len buf.old ≡ message_bytes self.now.memory.who.session d.message
            → IsGiven self.now.memory.who.session d result buf.new }
    {
        if !say.kind.is_signed() {
            return Some(len);
        }
        let leaf = self.memory.leaf(say)?;
        let scheme = self.guard.checker.verifier();
        if leaf >= scheme.leaves() {
            return None;
        }
        let (message, rest) = buf.split_at_mut(len);
        Some(len + scheme.sign(leaf, message, rest))
    }

    /// Writes the datagram of an exchange that an order sends to the start of a buffer, and returns its length.
    fn give_said(&self, say: Say, buf: &mut [u8]) -> Option<usize>
        requires room { largest_datagram ≤ length buf.old }
        ensures { (k : Knowledge) (d : Datagram) → IsMemoryOf (member_of self.now.memory.who) k self.now.memory
            → IsDue (member_of self.now.memory.who) k say d → IsGiven self.now.memory.who.session d result buf.new }
    {
        let len = self.memory.write(say, buf)?;
        self.sign(say, len, buf)
    }

    /// Encodes the datagram of an order at the start of a buffer, without the kept CASEs, and returns its length.
    fn give_anew(&self, order: Order, buf: &mut [u8]) -> Option<usize>
        requires room { largest_datagram ≤ length buf.old }
        ensures { (k : Knowledge) (d : Datagram) → IsMemoryOf (member_of self.now.memory.who) k self.now.memory
            → IsOrderDue (member_of self.now.memory.who) k order d → IsGiven self.now.memory.who.session d result buf.new }
    {
        match order {
            Order::Say(say) => self.give_said(say, buf),
            Order::Report(party) => self.memory.write_report(party, buf),
        }
    }

    /// Writes the datagram of an order to the start of a buffer, and returns its length. A kept CASE is copied.
    fn give(&self, order: Order, buf: &mut [u8]) -> Option<usize>
        requires room { largest_datagram ≤ length buf.old }
        ensures { (k : Knowledge) (d : Datagram) → IsMemoryOf (member_of self.now.memory.who) k self.now.memory
            → IsOrderDue (member_of self.now.memory.who) k order d → IsGiven self.now.memory.who.session d result buf.new }
    {
        if let Some(case) = self.kept_case(order) {
            if case.len() <= buf.len() {
                return Some(put(buf, 0, case));
            }
        }
        self.give_anew(order, buf)
    }

    /// The kept CASE of an order, if there is one.
    fn kept_case(&self, order: Order) -> Option<&[u8]>
        ensures { (case : List ℕ) → option_copied result ≡ Some case
            → (k : Knowledge) (d : Datagram) → IsMemoryOf (member_of self.now.memory.who) k self.now.memory
            → IsOrderDue (member_of self.now.memory.who) k order d → case ≡ datagram_bytes self.now.memory.who.session d }
    {
        let x = case_of(order)?;
        self.cases.get(self.memory.room(x), x)
    }

    /// Writes the next datagram to the start of a buffer, and returns its receiver and its length, or `None` if none is left.
    pub fn next_out(&mut self, buf: &mut [u8]) -> Option<(u16, usize)>
        requires room { largest_datagram ≤ length buf.old }
        ensures gives { (inputs : Inputs) (sends : List (ℕ × Datagram)) → StandsFor self.old.memory inputs
            → AreLeft self.old.memory self.old.orders inputs sends
            → GivesNext self.old.memory.who.session sends result buf.new (AreLeft self.new.memory self.new.orders inputs) }
        ensures ends { MatchOption result (left_in self.new.orders ≡ [])
            (λ given. length (left_in self.new.orders) < length (left_in self.old.orders)) }
        ensures memory { self.new.memory ≡ self.old.memory }
        ensures playing { self.new.playing ≡ self.old.playing }
    {
        leaf_discipline();
        logs_are_sound();
        signed_by_rule();
        what_was_said_is_written_again();
        evidence_fits_its_room();
        let order = self.orders.next()?;
        let Some(len) = self.give(order, buf) else {
            self.orders.clear();
            return None;
        };
        keep_case(&self.memory, &mut self.cases, order, buf, len);
        Some((self.memory.receiver(order), len))
    }
}
