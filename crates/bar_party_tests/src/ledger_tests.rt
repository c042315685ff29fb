//! Tests of what a peer remembers of its exchanges, by their numbers in order, and of the rounds in which a key is owed.
ghost use Rattle.std.specs.Prelude.{◌≡◌};
ghost use Rattle.bar_ledger.specs.Code.Memory.{HasSame};

use bar_ledger::{Entry, Ledger};
use bar_samples::sessions::ID;
use bar_window::{Exchange, Role, Terms, UpdateId, Window, XKind};
use bar_wire::{Kind, Shape};
use std::process::Abort;
use std::test::Fail;

/// The shape of the datagrams of a session of this version.
fn shape_of(version: u8) -> Shape
    ensures { result.sig_len ≡ 1292 }
{
    Shape {
        version,
        id: ID,
        peers: 5,
        rounds: 10,
        life: 4,
        per_round: 8,
        sig_len: 1292,
    }
}

/// A balanced exchange that this peer responds to.
fn exchange(round: u32, initiator: u16) -> Exchange {
    Exchange {
        round,
        kind: XKind::Balanced,
        initiator,
        responder: 1,
    }
}

/// An entry of the responder, whose terms trade one update for another.
fn asked(x: Exchange, seat: u8) -> Entry
    ensures { result.x ≡ x }
{
    let mut ha = Window::empty(5, 4, false);
    let mut hb = ha;
    ha.put(UpdateId { round: 4, index: 0 });
    hb.put(UpdateId { round: 5, index: 1 });
    Entry {
        x,
        role: Role::Responder,
        seat,
        terms: Terms::Balanced {
            nonce: [0; 32],
            ha,
            hb,
        },
        complete: true,
        first_said: true,
        case_said: true,
        key_said: true,
    }
}

fn add(rt: &impl Abort, ledger: &mut Ledger, entry: Entry)
    ensures { HasSame ledger.old ledger.new }
{
    let len = ledger.len();
    assert!(rt; len < 18);
    match ledger.find(entry.x) {
        Some(_) => panic!(rt; "kept already"),
        None => ledger.add(entry),
    }
}

/// Checks which exchange has a place.
fn check_place(rt: &impl Abort, ledger: &Ledger, place: u16, expected: Option<Exchange>) {
    assert_eq!(rt; ledger.place(place), expected);
}

#[test]
fn kept_exchanges_have_places_in_order(rt: HostRuntime) -> Result<(), Fail> {
    let mut ledger = Ledger::make(rt.alloc(), 1, 4, &shape_of(1))?;
    add(&rt, &mut ledger, asked(exchange(3, 2), 0));
    add(&rt, &mut ledger, asked(exchange(1, 3), 0));
    add(&rt, &mut ledger, asked(exchange(1, 2), 1));
    check_place(&rt, &ledger, 0, Some(exchange(1, 2)));
    check_place(&rt, &ledger, 1, Some(exchange(1, 3)));
    check_place(&rt, &ledger, 2, Some(exchange(3, 2)));
    check_place(&rt, &ledger, 3, None);
    ledger.forget(6);
    check_place(&rt, &ledger, 0, Some(exchange(3, 2)));
    check_place(&rt, &ledger, 1, None);
    Ok(())
}

/// In which of the rounds 4, 5, 7 and 8 party 2 owes peer 1 its key of an exchange of round 3.
fn owing(ledger: &Ledger) -> [bool; 4] {
    [
        ledger.owes(2, 4),
        ledger.owes(2, 5),
        ledger.owes(2, 7),
        ledger.owes(2, 8),
    ]
}

#[test]
fn a_key_is_owed_from_the_second_round_after_its_exchange_on(rt: HostRuntime) -> Result<(), Fail> {
    let x = exchange(3, 2);
    let mut ledger = Ledger::make(rt.alloc(), 1, 4, &shape_of(3))?;
    add(&rt, &mut ledger, asked(x, 0));
    assert_eq!(rt; owing(&ledger), [false, true, true, false]);
    assert!(rt; !ledger.owes(3, 5));
    if !ledger.may_hear(x, Kind::Key, &[1]) {
        panic!(rt; "no key may be heard");
    }
    ledger.hear(x, Kind::Key, &[1]);
    assert_eq!(rt; owing(&ledger), [false; 4]);
    Ok(())
}

#[test]
fn no_key_is_owed_in_version_1(rt: HostRuntime) -> Result<(), Fail> {
    let mut ledger = Ledger::make(rt.alloc(), 1, 4, &shape_of(1))?;
    add(&rt, &mut ledger, asked(exchange(3, 2), 0));
    assert_eq!(rt; owing(&ledger), [false; 4]);
    Ok(())
}
