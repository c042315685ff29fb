ghost use Rattle.std.specs.Prelude.{◌≡◌};

use crate::windows::window_with;
use bar_terms::{Item, Table, balanced_count, promise, push_answer, terms_ok};
use bar_window::{Exchange, Role, Terms, UpdateId, XKind};
use std::process::Abort;
use std::test::Fail;

fn update(round: u32, index: u8) -> UpdateId
    ensures at { result.round ≡ round }
    ensures place { result.index ≡ index }
{
    UpdateId { round, index }
}

const X: Exchange = Exchange {
    round: 6,
    kind: XKind::Balanced,
    initiator: 1,
    responder: 2,
};

#[test]
#[tactic(auto, using(bar_terms::proofs::Equal::terms_promise))]
fn balanced_terms_pay_as_much_on_both_sides(rt: HostRuntime) -> Result<(), Fail> {
    let ha = window_with(&rt, &[(3, 0), (3, 2), (5, 1), (5, 3)]);
    let hb = window_with(&rt, &[(3, 2), (4, 7)]);
    assert_eq!(rt; balanced_count(&ha, &hb, 4), 1);
    let table = Table::make(rt.alloc(), 10, 8)?;
    let terms = Terms::Balanced {
        nonce: [0; 32],
        ha,
        hb,
    };
    assert!(rt; terms_ok(&terms, X, 4, 4, &table));
    for (role, paid) in [
        (Role::Initiator, update(3, 0)),
        (Role::Responder, update(4, 7)),
    ] {
        let promise = promise(&terms, role, 4);
        assert_eq!(rt; promise.len, 1);
        assert_eq!(rt; promise.items[0], Item::Update(paid));
    }
    Ok(())
}

/// Checks the answer of a responder that holds some updates: those that it wants, those that it gives, and how many pieces of junk.
fn check_answer(
    rt: &impl Abort,
    held: &[(u32, u8)],
    want: &[(u32, u8)],
    give: &[(u32, u8)],
    junk: u8,
) {
    let young = window_with(rt, &[(5, 0), (5, 1)]);
    let aged = window_with(rt, &[(3, 1)]);
    let answer = push_answer(&young, &aged, &window_with(rt, held), 4);
    assert_eq!(rt; answer.want, window_with(rt, want));
    assert_eq!(rt; answer.give, window_with(rt, give));
    assert_eq!(rt; answer.junk, junk);
}

#[test]
fn a_push_is_answered_with_what_is_held(rt: HostRuntime) {
    check_answer(&rt, &[(5, 1), (3, 1)], &[(5, 0)], &[(3, 1)], 0);
    check_answer(&rt, &[], &[(5, 0), (5, 1)], &[], 2);
}
