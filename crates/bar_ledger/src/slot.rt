//! A slot for one exchange: its entry, and rooms for the datagrams that are heard in it.
ghost use Rattle.std.specs.Prelude.{◌≡◌, ◌≤◌, Some, None, IfOk, length, is_some, option_map, option_and_then, option_copied, IfSome, true, false, if◌then◌else◌};
ghost use Rattle.std.specs.Option.{option_map_or};
ghost use Rattle.bar_window.specs.Limits.{most_items};
ghost use Rattle.bar_window.specs.Terms.{plain_terms};
ghost use Rattle.bar_wire.specs.Limits.{largest_datagram};
ghost use Rattle.bar_terms.specs.Terms.{promise};
ghost use Rattle.bar_ledger.specs.Code.Kept.{kept_of, newly, with_new, with_bytes, heard_of, live_of, is_for, keeps};
ghost use Rattle.bar_wire.specs.declared.shape.Shape.{Shape};
ghost use Rattle.bar_ledger.specs.Code.Hearing.{is_opening};
ghost use Rattle.bar_ledger.specs.Code.Naming.{names, shares_leaf};
ghost use Rattle.bar_ledger.specs.Code.Asking.{chosen, is_any, is_asked, open_of};
ghost use Rattle.bar_ledger.specs.Code.Debts.{is_owed};
ghost use Rattle.bar_ledger.specs.Code.Slots.{HasSlotRooms, size_for};
ghost use Rattle.bar_ledger.specs.Code.Totals.{totals_by, no_totals, CanTotal, AreSound};

use crate::entry::Entry;
use crate::exchanges::{is_beside, is_due, opens};
use crate::sizes::{largest, most_first};
use crate::totals::Totals;
use bar_bytes::Room;
use bar_seal::Verifier;
use bar_window::{Exchange, Role, XKind};
use bar_wire::{Kind, Shape};
use std::alloc::{AllocError, Global};

#[derive(Drop)]
pub struct Slot {
    pub entry: Option<Entry>,
    /// The other side's first signed datagram.
    pub first: Room,
    pub divulge: Room,
    pub case: Room,
    pub key_request: Room,
    pub key: Room,
}

impl Slot {
    /// An empty slot.
    pub(crate) fn make(alloc: Global, shape: &Shape) -> Result<Slot, AllocError>
        requires { shape.now.sig_len ≤ largest_datagram }
        ensures empty { IfOk result (λ s. s.entry ≡ None) }
        ensures rooms { IfOk result (HasSlotRooms shape.now) }
    {
        Ok(Slot {
            entry: None,
            first: Room::make(alloc, most_first(shape))?,
            divulge: Room::make(alloc, largest(Kind::Divulge, shape))?,
            case: Room::make(alloc, largest(Kind::Case, shape))?,
            key_request: Room::make(alloc, largest(Kind::KeyReq, shape))?,
            key: Room::make(alloc, largest(Kind::Key, shape))?,
        })
    }

    /// Whether the slot keeps an exchange that isn't forgotten in a round.
    pub(crate) fn is_live(&self, life: u8, round: u32) -> bool
        ensures { result ≡ is_some (live_of life round self.now) }
    {
        match &self.entry {
            Some(entry) => round.saturating_sub(u32::from(life)) <= entry.x.round,
            None => false,
        }
    }

    fn is_of(&self, x: Exchange) -> bool
        ensures { result ≡ option_map_or (is_for x) (kept_of self.now) false }
    {
        match &self.entry {
            Some(entry) => entry.x == x,
            None => false,
        }
    }

    /// Whether the slot keeps this exchange, and it isn't forgotten in a round.
    pub(crate) fn keeps(&self, x: Exchange, life: u8, round: u32) -> bool
        ensures { result ≡ keeps x life round self.now }
    {
        self.is_live(life, round) && self.is_of(x)
    }

    /// Whether the slot keeps an exchange of a round and kind that this peer was asked for, and that isn't forgotten in round `now`.
    pub(crate) fn is_asked(&self, round: u32, kind: XKind, life: u8, now: u32) -> bool
        ensures { result ≡ option_map_or (is_asked kind round) (live_of life now self.now) false }
    {
        match &self.entry {
            Some(entry) => {
                self.is_live(life, now)
                    && entry.role == Role::Responder
                    && entry.x.kind == kind
                    && entry.x.round == round
            }
            None => false,
        }
    }

    /// Whether the slot keeps another exchange than `x`, with a party, in which a signed datagram was heard that names a leaf.
    pub(crate) fn shares_leaf<V: Verifier>(
        &self,
        verifier: &V,
        x: Exchange,
        party: u16,
        leaf: u32,
    ) -> bool
        ensures { result ≡ option_map_or (shares_leaf (V.leaf_named verifier.now) (V.signature_len verifier.now) leaf x party)
            (kept_of self.now) false }
    {
        let Some(entry) = &self.entry else {
            return false;
        };
        is_beside(x, party, entry.x)
            && (names(verifier, self.first.kept(), leaf)
                || names(verifier, self.case.kept(), leaf)
                || names(verifier, self.key.kept(), leaf))
    }

    /// The same, if the exchange isn't forgotten in a round; else false.
    pub(crate) fn names_leaf<V: Verifier>(
        &self,
        verifier: &V,
        x: Exchange,
        party: u16,
        leaf: u32,
        life: u8,
        round: u32,
    ) -> bool
        ensures { result ≡ option_map_or (shares_leaf (V.leaf_named verifier.now) (V.signature_len verifier.now) leaf x party)
            (live_of life round self.now) false }
    {
        self.is_live(life, round) && self.shares_leaf(verifier, x, party, leaf)
    }

    /// Whether a party owes the KEY of the slot's exchange in a round: the exchange is open and with the party, its KEYs are due, this
    /// peer's is said and the party's isn't heard. If the exchange is forgotten in round `round`, none is owed.
    pub(crate) fn is_owed(&self, party: u16, now: u32, life: u8, round: u32) -> bool
        ensures { result ≡ option_map_or (is_owed life party now) (live_of life round self.now) false }
    {
        let Some(entry) = &self.entry else {
            return false;
        };
        self.is_live(life, round)
            && entry.first_said
            && entry.x.party(entry.role.other()) == party
            && is_due(entry.x, life, now)
            && entry.key_said
            && self.key.kept().is_none()
    }

    /// The slot's exchange, if it isn't forgotten in a round.
    pub(crate) fn exchange(&self, life: u8, round: u32) -> Option<Exchange>
        ensures { result ≡ option_and_then (chosen is_any) (live_of life round self.now) }
    {
        let entry = self.entry.as_ref()?;
        self.is_live(life, round).then_some(entry.x)
    }

    /// The slot's exchange, if this peer said its first message in it and it isn't forgotten in a round.
    pub(crate) fn open(&self, life: u8, round: u32) -> Option<Exchange>
        ensures { result ≡ option_and_then open_of (live_of life round self.now) }
    {
        let entry = self.entry.as_ref()?;
        (entry.first_said && self.is_live(life, round)).then_some(entry.x)
    }

    /// Gives the slot to another exchange, without any datagram.
    pub(crate) fn renew(&mut self, entry: Entry)
        ensures kept { kept_of self.new ≡ Some (newly entry) }
        ensures rooms { (shape : Shape) → HasSlotRooms shape self.old → HasSlotRooms shape self.new }
    {
        self.entry = Some(entry);
        self.first.empty();
        self.divulge.empty();
        self.case.empty();
        self.key_request.empty();
        self.key.empty();
    }

    /// Replaces the entry, if there is one.
    pub(crate) fn put(&mut self, entry: Entry)
        ensures kept { kept_of self.new ≡ option_map (with_new entry) (kept_of self.old) }
        ensures rooms { (shape : Shape) → HasSlotRooms shape self.old → HasSlotRooms shape self.new }
    {
        if self.entry.is_some() {
            self.entry = Some(entry);
        }
    }

    /// Keeps a datagram that was heard.
    pub(crate) fn hear(&mut self, kind: Kind, bytes: &[u8])
        requires { length bytes.now ≤ size_for kind self.old }
        ensures kept { kept_of self.new ≡ option_map (with_bytes kind bytes.now) (kept_of self.old) }
        ensures rooms { (shape : Shape) → HasSlotRooms shape self.old → HasSlotRooms shape self.new }
    {
        match kind {
            Kind::Divulge => self.divulge.keep(bytes),
            Kind::Case => self.case.keep(bytes),
            Kind::KeyReq => self.key_request.keep(bytes),
            Kind::Key => self.key.keep(bytes),
            Kind::Manifest
            | Kind::Block
            | Kind::Request
            | Kind::Response
            | Kind::Query
            | Kind::Reply
            | Kind::Evidence
            | Kind::Evict => self.first.keep(bytes),
        }
    }

    /// The datagram of a kind that was heard.
    pub(crate) fn heard(&self, kind: Kind) -> Option<&[u8]>
        ensures { option_copied result ≡ option_and_then (heard_of kind) (kept_of self.now) }
    {
        let entry = self.entry.as_ref()?;
        match kind {
            Kind::Divulge => self.divulge.kept(),
            Kind::Case => self.case.kept(),
            Kind::KeyReq => self.key_request.kept(),
            Kind::Key => self.key.kept(),
            Kind::Manifest
            | Kind::Block
            | Kind::Request
            | Kind::Response
            | Kind::Query
            | Kind::Reply
            | Kind::Evidence
            | Kind::Evict => self.opening(kind, entry),
        }
    }

    /// The other side's first signed datagram, if it is of this kind.
    fn opening(&self, kind: Kind, entry: &Entry) -> Option<&[u8]>
        ensures { option_copied result ≡ (if is_opening kind entry.now.x.kind entry.now.role then self.now.first.kept else None) }
    {
        if opens(kind, entry.x, entry.role) {
            self.first.kept()
        } else {
            None
        }
    }

    /// The totals of what was promised, received and opened.
    pub(crate) fn totals(&self, cap: u8) -> Totals
        requires cap { cap ≤ most_items }
        requires terms { IfSome (kept_of self.now) (CanTotal cap) }
        ensures { result ≡ option_map_or (totals_by cap) (kept_of self.now) no_totals }
    {
        let Some(entry) = &self.entry else {
            return Totals {
                promised: 0,
                received: 0,
                opened: 0,
            };
        };
        Totals {
            promised: size_if(entry.case_said, entry, entry.role, cap),
            received: size_if(self.case.kept().is_some(), entry, entry.role.other(), cap),
            opened: size_if(entry.key_said, entry, entry.role, cap),
        }
    }
}

/// Whether the signature that ends a datagram names a leaf.
pub fn names<V: Verifier>(verifier: &V, datagram: Option<&[u8]>, leaf: u32) -> bool
    ensures { result ≡ option_map_or (names (V.leaf_named verifier.now) (V.signature_len verifier.now) leaf)
        (option_copied datagram.entry) false }
{
    let Some(bytes) = datagram else {
        return false;
    };
    let len = verifier.sig_len();
    len <= bytes.len() && verifier.leaf_in(&bytes[bytes.len() - len..]) == leaf
}

/// How many items a side promised: 0 unless `promised` is true.
fn size_if(promised: bool, entry: &Entry, role: Role, cap: u8) -> u8
    requires cap { cap ≤ most_items }
    requires terms { promised ≡ true → AreSound cap entry.now.terms }
    ensures { result ≡ (if promised then length (promise cap (plain_terms entry.now.terms) role) else 0) }
{
    if promised {
        bar_terms::promise(&entry.terms, role, cap).len
    } else {
        0
    }
}
