ghost use Rattle.std.specs.Prelude.{◌≡◌, false};
ghost use Rattle.bar_window.specs.Code.Window.{IsWindowOf};

use crate::windows::window_with;
use bar_window::{Exchange, UpdateId, Window, XKind};
use std::process::Abort;

fn update(round: u32, index: u8) -> UpdateId
    ensures at { result.round ≡ round }
    ensures place { result.index ≡ index }
{
    UpdateId { round, index }
}

fn first_words(window: &Window) -> [u64; 4] {
    let [a, b, c, d, ..] = window.words;
    [a, b, c, d]
}

/// The window of the first side.
fn first(rt: &impl Abort) -> Window
    ensures rounds { IsWindowOf 4 6 result }
    ensures wide { result.wide ≡ false }
{
    window_with(rt, &[(5, 3), (3, 0), (5, 1), (3, 2)])
}

/// The window of the second side.
fn second(rt: &impl Abort) -> Window
    ensures rounds { IsWindowOf 4 6 result }
    ensures wide { result.wide ≡ false }
{
    window_with(rt, &[(4, 7), (3, 2)])
}

/// Checks the words of a window of four rounds from round 3 on, and its size.
fn check_window(rt: &impl Abort, window: &Window, words: [u64; 4], size: u32) {
    assert_eq!(rt; (window.base, window.used), (3, 4));
    assert_eq!(rt; first_words(window), words);
    assert_eq!(rt; window.size(), size);
}

#[test]
fn windows_are_sets(rt: HostRuntime) {
    let (ha, hb) = (first(&rt), second(&rt));
    assert!(rt; ha.base == hb.base && ha.used == hb.used);
    check_window(&rt, &ha, [0x5, 0, 0xa, 0], 4);
    check_window(&rt, &hb, [0x4, 0x80, 0, 0], 2);
    check_window(&rt, &ha.minus(&hb), [0x1, 0, 0xa, 0], 3);
    check_window(&rt, &hb.minus(&ha), [0, 0x80, 0, 0], 1);
    check_window(&rt, &ha.both(&hb), [0x4, 0, 0, 0], 1);
    assert!(rt; ha.both(&hb).inside(&hb) & !ha.inside(&hb));
}

#[test]
fn the_first_updates_of_a_window_are_those_of_the_first_rounds(rt: HostRuntime) {
    let window = first(&rt);
    check_window(&rt, &window.first(3), [0x5, 0, 0x2, 0], 3);
    check_window(&rt, &window.first(9), [0x5, 0, 0xa, 0], 4);
}

#[test]
fn a_window_has_the_updates_that_were_put_in(rt: HostRuntime) {
    let window = first(&rt);
    assert!(rt; window.has(update(3, 2)) & !window.has(update(4, 7)) & !window.has(update(7, 0)));
    assert!(rt; window.lies_in(3, 5) & !window.lies_in(4, 6));
}

#[test]
fn the_updates_of_a_window_are_listed_in_order(rt: HostRuntime) {
    let listed = first(&rt).list();
    assert_eq!(rt; listed.len, 4);
    let ids = [update(3, 0), update(3, 2), update(5, 1), update(5, 3)];
    assert!(rt; listed.ids.starts_with(&ids));
}

#[test]
fn the_window_of_an_early_round_begins_with_round_one(rt: HostRuntime) {
    for (round, life, base, used) in [
        (2, 4, 1, 2),
        (4, 4, 1, 4),
        (5, 4, 2, 4),
        (1, 16, 1, 1),
        (9, 1, 9, 1),
    ] {
        let window = Window::empty(round, life, false);
        assert_eq!(rt;
            (window.base, window.used),
            (base, used),
            "of round {round}"
        );
        assert_eq!(rt; window.size(), 0);
    }
}

/// Checks some consecutive bytes.
fn check_bytes(rt: &impl Abort, bytes: &[u8], from: usize, wanted: &[u8]) {
    let part = bytes.get(from..).unwrap_or(b"");
    assert!(rt; part.starts_with(wanted), "from {from}");
}

#[test]
fn bytes_begin_with_the_first_round(rt: HostRuntime) {
    let bytes = window_with(&rt, &[(3, 0), (3, 15), (6, 63)]).bytes();
    check_bytes(&rt, &bytes, 0, &[0, 0, 0, 0, 0, 0, 0x80, 0x01]);
    check_bytes(&rt, &bytes, 24, &[0x80, 0, 0, 0, 0, 0, 0, 0]);
}

#[test]
fn the_bytes_of_an_exchange_have_its_kind_and_its_parties(rt: HostRuntime) {
    let exchange = Exchange {
        round: 6,
        kind: XKind::Push,
        initiator: 1,
        responder: 0x102,
    };
    assert_eq!(rt; exchange.bytes(), [0, 0, 0, 6, 1, 0, 1, 1, 2]);
}

/// The wide window of round 6 with the first and the last update of the second word of round 3.
fn wide_window() -> Window {
    let mut window = Window::empty(6, 4, true);
    window.put(update(3, 64));
    window.put(update(3, 127));
    window
}

#[test]
fn a_wide_window_has_two_words_for_each_round(rt: HostRuntime) {
    let window = wide_window();
    assert!(rt; window.has(update(3, 127)) && !window.has(update(3, 0)));
    assert!(rt; window.lies_in(3, 3) && window.size() == 2);
    assert_eq!(rt; window.byte_len(4), 64);
}

#[test]
fn bytes_of_a_wide_window_have_the_second_word_after_the_first(rt: HostRuntime) {
    let bytes = wide_window().bytes();
    check_bytes(&rt, &bytes, 0, &[0; 8]);
    check_bytes(&rt, &bytes, 8, &[0x80, 0, 0, 0, 0, 0, 0, 1]);
    check_bytes(&rt, &bytes, 16, &[0; 48]);
}
