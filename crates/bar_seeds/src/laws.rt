//! Laws of all seeds, partners and hashes. These functions do nothing: what they ensure is a law.

ghost use Rattle.std.specs.Prelude.{◌≡◌, ℕ, ◌-◌, ◌≤◌, ◌≢◌, ◌↔◌, List, length, IsTrue};
ghost use Rattle.bar_window.specs.declared.update.UpdateId.{UpdateId};
ghost use Rattle.bar_window.specs.declared.exchange.XKind.{XKind};
ghost use Rattle.bar_window.specs.declared.exchange.Role.{Role};
ghost use Rattle.bar_window.specs.declared.exchange.Exchange.{Exchange};
ghost use Rattle.bar_seeds.specs.declared.secrets.Secrets.{Secrets};
ghost use Rattle.bar_seeds.specs.Seeds.{chain_down, chain_start, is_seed, seed_of, anchor_of};
ghost use Rattle.bar_seeds.specs.Partners.{partner_of};
ghost use Rattle.bar_seeds.specs.Derived.{nonce_of, briefcase_key, commitment_of};

/// The test of a seed is true if and only if hashing it back to round 0 gives the anchor.
pub fn seeds_are_tested()
    ensures { (id anchor : List ℕ) (party round : ℕ) (seed : List ℕ) →
        IsTrue (is_seed id anchor party round seed) ↔ (chain_start id party round seed ≡ anchor) }
{}

/// The seed that a secret gives for a round is a seed under the anchor that it gives.
pub fn own_seeds_meet_the_anchor()
    ensures { (s : Secrets) (rounds round : ℕ) → round ≤ rounds →
        IsTrue (is_seed s.id (anchor_of s rounds) s.party round (seed_of s rounds round)) }
{}

/// The seed that a secret gives for a round leads to those of all rounds before, with the anchor as that of round 0. So a party's later
/// seeds are tested against its last kept one in as many steps as there are rounds between.
pub fn own_seeds_lead_to_earlier_ones()
    ensures { (s : Secrets) (rounds round before : ℕ) → before ≤ round → round ≤ rounds →
        chain_down s.id s.party before (round - before) (seed_of s rounds round) ≡ seed_of s rounds before }
{}

/// A partner is one of the peers, other than oneself.
pub fn partners_are_other_peers()
    ensures low { (id : List ℕ) (peers : ℕ) (seed : List ℕ) (kind : XKind) (me : ℕ) → 1 ≤ partner_of id peers seed kind me }
    ensures high { (id : List ℕ) (peers : ℕ) (seed : List ℕ) (kind : XKind) (me : ℕ) → 2 ≤ peers →
        partner_of id peers seed kind me ≤ peers }
    ensures other { (id : List ℕ) (peers : ℕ) (seed : List ℕ) (kind : XKind) (me : ℕ) → partner_of id peers seed kind me ≢ me }
{}

/// Seeds, nonces, keys and commitments have 32 bytes.
pub fn hashes_have_32_bytes()
    ensures seed { (s : Secrets) (rounds round : ℕ) → length (seed_of s rounds round) ≡ 32 }
    ensures nonce { (s : Secrets) (x : Exchange) → length (nonce_of s x) ≡ 32 }
    ensures key { (s : Secrets) (x : Exchange) (role : Role) → length (briefcase_key s x role) ≡ 32 }
    ensures commitment { (words life : ℕ) (id : List ℕ) (x : Exchange) (nonce : List ℕ) (ha : List UpdateId) →
        length (commitment_of words life id x nonce ha) ≡ 32 }
{}
