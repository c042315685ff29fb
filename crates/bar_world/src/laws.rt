//! Theorems about the simulation of every seed, stated over the definitions alone.

ghost use Rattle.bar_world.specs.Laws.{SimsAreSetups, SimsAreRuns, SimsForgeNothing, HonestPeersStay};

use bar_laws::own_runs::parties_run_alone;
use bar_laws::parties::nobody_is_evicted;

/// The simulation of a seed is a run of a session over a network that delivers, loses and repeats, and nothing is forged of parties 0 to 4.
pub fn simulations_are_fair()
    ensures setup { SimsAreSetups }
    ensures run { SimsAreRuns }
    ensures unforged { SimsForgeNothing }
{}

/// For every seed, none of peers 1 to 4 is evicted.
pub fn honest_peers_stay()
    ensures { HonestPeersStay }
{
    nobody_is_evicted();
    parties_run_alone();
}
