//! The messages that a peer sends in its exchanges.
ghost use Rattle.std.specs.Prelude.{◌≡◌, false, is_some};
ghost use Rattle.bar_window.specs.declared.exchange.Role.TheVariants.{Initiator};
ghost use Rattle.bar_rules.specs.Peer.Agreement.{IsRecent};
ghost use Rattle.bar_rules.specs.Peer.Exchanges.{role_of, request_kind};
ghost use Rattle.bar_rules.specs.Peer.Knowledge.{Knowledge, known, this_round};
ghost use Rattle.bar_rules.specs.Peer.Orders.{Ask};
ghost use Rattle.bar_rules.specs.Peer.Rules.{IsObedient};
ghost use Rattle.bar_rules.specs.Peer.Run.{Out, perform};
ghost use Rattle.bar_exchange.specs.Code.Says.{order_by};
ghost use Rattle.bar_peer.specs.Code.Memory.{member_of, IsMemoryOf, Represents, IsSameParty};
ghost use Rattle.bar_peer.specs.Code.Sending.{send_now, MaySayNow, IsCarriedOut};

use crate::memory::Memory;
use bar_exchange::{Say, say_case, say_key};
use bar_laws::knowing::knowledge_is_enough;
use bar_laws::memories::logs_are_sound;
use bar_laws::rooms::exchanges_are_few;
use bar_window::{Exchange, XKind};
use bar_wire::Kind;

/// The message that asks for an exchange.
pub fn request(x: Exchange) -> Say
    ensures { result ≡ record { kind = request_kind x.kind; x = x } }
{
    let kind = match x.kind {
        XKind::Balanced => Kind::Request,
        XKind::Push => Kind::Query,
    };
    Say { kind, x }
}

impl Memory {
    /// Whether the nonce and history are known that the initiator of a balanced exchange commits to; false for a push.
    fn may_reveal(&self, x: Exchange) -> bool
        ensures { (k : Knowledge) → IsMemoryOf (member_of self.now.who) k self.now → IsRecent (member_of self.now.who) k x.round
            → result ≡ is_some (k.revealed x) }
    {
        match x.kind {
            XKind::Balanced => self.ledger.knows_commit(x),
            XKind::Push => false,
        }
    }

    /// Whether there is a datagram to send again: one of this kind was sent in the exchange before, or the kind isn't signed and its body
    /// is known.
    pub fn may_repeat(&self, say: Say) -> bool
        ensures { (k : Knowledge) → IsMemoryOf (member_of self.now.who) k self.now → IsRecent (member_of self.now.who) k say.x.round
            → result ≡ is_some (send_now (member_of self.now.who) k say) }
    {
        match say.kind {
            Kind::KeyReq => true,
            Kind::Divulge => self.may_reveal(say.x),
            kind => self.ledger.has_said(say.x, kind, self.ledger.side(say.x)),
        }
    }

    /// Says a reply for the first time, if there is none to send again. Returns whether there is one to send.
    pub fn say(&mut self, say: Say) -> bool
        ensures carried_out { (out : Out)
            → IsObedient (member_of self.old.who) (perform (member_of self.old.who) out (order_by say.kind say.x)).state
            → Represents out.state self.old → MaySayNow (member_of self.old.who) (known (member_of self.old.who) out.state) say
            → is_some (send_now (member_of self.old.who) (known (member_of self.old.who) out.state) say) ≡ false
            → IsCarriedOut (member_of self.old.who) say out
            (perform (member_of self.old.who) out (order_by say.kind say.x)) result self.new }
        ensures party { IsSameParty self.old self.new }
    {
        knowledge_is_enough();
        match say.kind {
            Kind::Response => {
                bar_balanced::say_response(&mut self.ledger, &self.store, say.x);
                true
            }
            Kind::Reply => {
                if !self.ledger.knows_offer(say.x) {
                    return false;
                }
                bar_push::say_reply(&mut self.ledger, &self.store, say.x)
            }
            Kind::Case => say_case(&mut self.ledger, say.x),
            Kind::Key => say_key(&mut self.ledger, say.x),
            _ => false,
        }
    }

    /// Asks a partner for an exchange of this round. Returns whether there is a datagram to send.
    pub fn ask(&mut self, x: Exchange) -> bool
        ensures carried_out { (out : Out)
            → IsObedient (member_of self.old.who) (perform (member_of self.old.who) out (Ask x)).state
            → Represents out.state self.old → x.round ≡ this_round (known (member_of self.old.who) out.state)
            → role_of (member_of self.old.who) x ≡ Initiator
            → IsCarriedOut (member_of self.old.who) (record { kind = request_kind x.kind; x = x }) out
            (perform (member_of self.old.who) out (Ask x)) result self.new }
        ensures party { IsSameParty self.old self.new }
    {
        knowledge_is_enough();
        logs_are_sound();
        exchanges_are_few();
        if self.may_repeat(request(x)) {
            return true;
        }
        match x.kind {
            XKind::Balanced => {
                let secrets = self.who.secrets;
                bar_balanced::say_request(&mut self.ledger, &self.store, &secrets, x);
            }
            XKind::Push => bar_push::say_query(&mut self.ledger, &self.store, x),
        }
        true
    }
}
