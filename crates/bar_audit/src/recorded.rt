//! Which exchanges are recorded.
ghost use Rattle.std.specs.Prelude.{◌≡◌, ◌<◌, ◌^◌, filter, OnOk, vec_len};
ghost use Rattle.bar_rules.specs.Peer.Exchanges.{IsRising};
ghost use Rattle.bar_audit.specs.Code.Findings.{are_given, has_number};

use crate::findings::NoMemory;
use crate::side::exchanges_are_in_order;
use bar_window::Exchange;
use std::alloc::AllocError;
use std::collections::BTreeSet;

/// Whether a party is in a set of parties.
fn has_party(parties: &BTreeSet<u16>, party: u16) -> bool
    ensures { result ≡ has_number parties.now.keys party }
{
    parties.contains(&party)
}

/// Lists, in order, those exchanges of which both parties are given: at most 2^32 - 1 of them.
pub(crate) fn list_recorded(
    recorded: &mut Vec<Exchange>,
    exchanges: &BTreeSet<Exchange>,
    parties: &BTreeSet<u16>,
) -> Result<(), NoMemory>
    ensures listed { OnOk result (recorded.new.items ≡ filter (are_given parties.now.keys) exchanges.now.keys) }
    ensures rising { OnOk result (IsRising recorded.new.items) }
    ensures few { OnOk result (vec_len recorded.new < 2 ^ 32) }
{
    exchanges_are_in_order();
    recorded.clear();
    for x in exchanges {
        if has_party(parties, x.initiator) && has_party(parties, x.responder) {
            if recorded.len() >= u32::MAX as usize {
                return Err(AllocError);
            }
            recorded.push(*x)?;
        }
    }
    Ok(())
}
