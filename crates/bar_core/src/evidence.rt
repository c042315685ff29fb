//! Storing evidence in rooms, by party.
ghost use Rattle.std.specs.Prelude.{◌≡◌, ◌+◌, ◌<◌, ◌≤◌, ◌==◌, ◌++◌, ◌∷◌, [], ℕ, Some, IfSome, length, option_map, if◌then◌else◌};
ghost use Rattle.bar_bytes.specs.Code.Rooms.{kept_in};
ghost use Rattle.bar_wire.specs.Evidence.{datagrams_of, evidence_bytes};
ghost use Rattle.bar_wire.specs.Grammar.{entry, AreDatagramsInRange};

use bar_bytes::Rooms;
use bar_wire::EvidenceView;

/// The greatest length that fits two bytes.
const MOST: usize = 65_535;

/// Appends a datagram, preceded by its length, to what a room keeps.
fn add_entry(rooms: &mut Rooms, number: usize, datagram: &[u8])
    requires last { number < length rooms.old.rooms.items }
    requires short { length datagram.now ≤ 65535 }
    requires fits { IfSome (kept_in rooms.old number) (λ kept. length kept + (2 + length datagram.now) ≤ rooms.old.size) }
    ensures kept { (n : ℕ) → kept_in rooms.new n ≡
        (if n == number then option_map (λ kept. kept ++ entry datagram.now) (kept_in rooms.old number) else kept_in rooms.old n) }
    ensures count { length rooms.new.rooms.items ≡ length rooms.old.rooms.items }
    ensures size { rooms.new.size ≡ rooms.old.size }
{
    let len = (datagram.len() as u16).to_be_bytes();
    rooms.add(number, &len);
    rooms.add(number, datagram);
}

/// Keeps evidence of one datagram in a room, if it fits.
fn keep_one(rooms: &mut Rooms, number: usize, one: &[u8])
    requires last { number < length rooms.old.rooms.items }
    ensures kept { length one.now ≤ 65535 → 3 + length one.now ≤ rooms.old.size → (n : ℕ) → kept_in rooms.new n ≡
        (if n == number then Some (evidence_bytes (one.now ∷ [])) else kept_in rooms.old n) }
    ensures unfit { rooms.old.size < 3 + length one.now → rooms.new ≡ rooms.old }
    ensures count { length rooms.new.rooms.items ≡ length rooms.old.rooms.items }
    ensures size { rooms.new.size ≡ rooms.old.size }
{
    if one.len() > MOST || 3 + one.len() > rooms.size() {
        return;
    }
    rooms.keep(number, &[1]);
    add_entry(rooms, number, one);
}

/// Keeps evidence of two datagrams in a room, if it fits.
fn keep_two(rooms: &mut Rooms, number: usize, one: &[u8], two: &[u8])
    requires last { number < length rooms.old.rooms.items }
    ensures kept { length one.now ≤ 65535 → length two.now ≤ 65535 → 5 + length one.now + length two.now ≤ rooms.old.size
        → (n : ℕ) → kept_in rooms.new n ≡
        (if n == number then Some (evidence_bytes (one.now ∷ two.now ∷ [])) else kept_in rooms.old n) }
    ensures unfit { rooms.old.size < 5 + length one.now + length two.now → rooms.new ≡ rooms.old }
    ensures count { length rooms.new.rooms.items ≡ length rooms.old.rooms.items }
    ensures size { rooms.new.size ≡ rooms.old.size }
{
    if one.len() > MOST || two.len() > MOST || 5 + one.len() + two.len() > rooms.size() {
        return;
    }
    rooms.keep(number, &[2]);
    add_entry(rooms, number, one);
    add_entry(rooms, number, two);
}

/// Keeps the datagrams of evidence in the room of a party, encoded as the body of an EVIDENCE, if they fit.
pub fn keep_evidence(rooms: &mut Rooms, party: u16, evidence: &EvidenceView<'_>)
    requires last { party < length rooms.old.rooms.items }
    ensures kept { AreDatagramsInRange (datagrams_of evidence.now)
        → length (evidence_bytes (datagrams_of evidence.now)) ≤ rooms.old.size → (n : ℕ) → kept_in rooms.new n ≡
        (if n == party then Some (evidence_bytes (datagrams_of evidence.now)) else kept_in rooms.old n) }
    ensures unfit { rooms.old.size < length (evidence_bytes (datagrams_of evidence.now)) → rooms.new ≡ rooms.old }
    ensures count { length rooms.new.rooms.items ≡ length rooms.old.rooms.items }
    ensures size { rooms.new.size ≡ rooms.old.size }
{
    let number = usize::from(party);
    match evidence.two {
        Some(two) => keep_two(rooms, number, evidence.one, two),
        None => keep_one(rooms, number, evidence.one),
    }
}
