//! Briefcases of this peer's side.
ghost use Rattle.std.specs.Prelude.{◌≡◌, ◌≤◌, ◌↔◌, IsTrue, IfSome, true, length, option_map};
ghost use Rattle.std.specs.List.{All};
ghost use Rattle.bar_window.specs.Limits.{most_items};
ghost use Rattle.bar_window.specs.Terms.{plain_terms};
ghost use Rattle.bar_terms.specs.Code.Windows.{AreAligned};
ghost use Rattle.bar_wire.specs.Limits.{largest_datagram};
ghost use Rattle.bar_wire.specs.declared.kind.Kind.TheVariants as kinds;
ghost use Rattle.bar_wire.specs.Code.Views.{AreTermWindows};
ghost use Rattle.bar_case.specs.Sealed.{IsHeldItem};
ghost use Rattle.bar_rules.specs.Member.{Member};
ghost use Rattle.bar_rules.specs.Peer.Agreement.{IsRecent};
ghost use Rattle.bar_rules.specs.Peer.Knowledge.{Knowledge};
ghost use Rattle.bar_rules.specs.Peer.Terms.{terms_of};
ghost use Rattle.bar_rules.specs.Peer.Writing.{body_now};
ghost use Rattle.bar_store.specs.Code.Held.{block_in};
ghost use Rattle.bar_exchange.specs.Code.Writing.{AreSourcesOf, CanSeal, IsSealable, IsWritten, LeavesRest};

use crate::known::kept_terms;
use crate::sources::Sources;
use crate::writing::write_message;
use bar_case::seal;
use bar_store::Store;
use bar_terms::{Item, can_promise, junk_count, promise, update_count};
use bar_window::{Exchange, LARGEST_CIPHER, Role, Terms};
use bar_wire::Body;

/// The terms of an exchange, if both sides' parts are known.
fn complete_terms(sources: &Sources<'_>, x: Exchange) -> Option<Terms>
    ensures known { (me : Member) (k : Knowledge) → AreSourcesOf me k sources.now → IsRecent me k x.round
        → option_map plain_terms result ≡ terms_of me k x }
    ensures windows { IfSome result (AreTermWindows sources.now.session.now.shape x.round) }
{
    if !sources.ledger.is_complete(x) {
        return None;
    }
    kept_terms(sources, x)
}

/// Whether an item of a promise is available: its block is held, or it is junk.
fn is_held(store: &Store, item: &Item) -> bool
    ensures { IsTrue result ↔ IsHeldItem (block_in store.now) item.now }
{
    match item {
        Item::Update(id) => store.holds(*id),
        Item::Junk(_) => true,
    }
}

/// Whether all items of a promise are available.
fn are_held(store: &Store, items: &[Item]) -> bool
    ensures { IsTrue result ↔ All (IsHeldItem (block_in store.now)) items.now }
{
    for item in items {
        if !is_held(store, item) {
            return false;
        }
    }
    true
}

/// Whether a side can promise something by the terms, and the blocks of the updates that it promises are held.
fn can_seal(store: &Store, terms: &Terms, role: Role, cap: u8) -> bool
    requires windows { AreAligned terms.now }
    requires cap { cap ≤ most_items }
    ensures { IsTrue result ↔ IsSealable (block_in store.now) cap (plain_terms terms.now) role }
{
    if !can_promise(terms, cap) {
        return false;
    }
    let promise = promise(terms, role, cap);
    are_held(store, &promise.items[..usize::from(promise.len)])
}

/// Writes the message of a CASE, with the blocks that are held now, and returns its length, or `None` if the terms aren't complete or a
/// promised block isn't held.
#[tactic(auto, using(crate::proofs::Messages::window_short))]
pub fn write_case(sources: &Sources<'_>, x: Exchange, out: &mut [u8]) -> Option<usize>
    requires room { largest_datagram ≤ length out.old }
    ensures written { (me : Member) (k : Knowledge) → AreSourcesOf me k sources.now → IsRecent me k x.round → CanSeal me k x
        → IsWritten me x (body_now me k kinds.Case x) result out.new }
    ensures front { LeavesRest out.old result out.new }
{
    let shape = sources.session.shape();
    let cap = sources.session.cap();
    let terms = complete_terms(sources, x)?;
    let role = sources.ledger.side(x);
    if !can_seal(sources.store, &terms, role, cap) {
        return None;
    }
    let key = sources.secrets.key(x, role);
    let mut cipher = [0; LARGEST_CIPHER];
    let length = seal(
        &shape.id,
        x,
        &terms,
        role,
        cap,
        &key,
        sources.store,
        &mut cipher,
    );
    let body = Body::Case {
        round: x.round,
        xkind: x.kind,
        role,
        updates: update_count(&terms, role, cap),
        junk: junk_count(&terms, role),
        terms,
        cipher: &cipher[..length],
    };
    Some(write_message(sources, x, &body, out))
}
