//! HSS as a scheme.

ghost use Rattle.std.specs.Prelude.{◌≡◌};
ghost use Rattle.bar_lms.specs.declared.params.Height.TheVariants.{H5};

use crate::acceptance::{accepts_by, leaf_in, signature_len};
use crate::key::HssKey;
use bar_bytes::Steps;
use bar_lms::Params;
use bar_seal::{Scheme, Verifier};
use std::alloc::{AllocError, Global};
use std::sync::ledger::Ledger;

/// Acceptance of signatures of two levels under public keys of these types. No signature is accepted under any other key.
#[derive(Clone, Copy, Debug)]
pub struct HssVerifier {
    pub top: Params,
    pub low: Params,
}

/// HSS under a secret key.
#[derive(Drop)]
pub struct HssScheme {
    key: HssKey,
    ghost five: { key.low.height ≡ H5 },
}

impl HssVerifier {
    /// The verifier of signatures of these types.
    pub fn new(top: Params, low: Params) -> HssVerifier
        ensures { result ≡ record { top = top; low = low } }
    {
        HssVerifier { top, low }
    }
}

impl Verifier for HssVerifier {
    ghost use Rattle.bar_lms.specs.Hss.{hss_leaf_in, hss_most_steps, hss_signature_len, hss_steps_taken, is_hss_accepted};

    ghost is_accepted = { λ s key message sig. is_hss_accepted s.top s.low key message sig };

    ghost signature_len = { λ s. hss_signature_len s.top s.low };

    ghost steps_taken = { λ s key message sig. hss_steps_taken s.top s.low key message sig };

    ghost most_steps = { λ s. hss_most_steps s.top s.low };

    ghost leaf_named = { λ s sig. hss_leaf_in s.top sig };

    fn sig_len(&self) -> usize {
        signature_len(self.top, self.low)
    }

    fn most(&self) -> u32 {
        self.top.most() + self.low.most()
    }

    fn accepts<L: Ledger>(
        &self,
        key: &[u8],
        message: &[u8],
        sig: &[u8],
        steps: &mut Steps<L>,
    ) -> bool {
        accepts_by(self.top, self.low, key, message, sig, steps)
    }

    fn leaf_in(&self, sig: &[u8]) -> u32 {
        leaf_in(self.top, self.low, sig)
    }
}

impl HssScheme {
    /// The scheme that signs with a secret key.
    pub fn new(key: HssKey) -> HssScheme
        ensures { result.key ≡ key }
    {
        key.low();
        HssScheme { key }
    }

    /// Remembers the trees of several consecutive leaves and the chain values of their last signatures (`HssKey::remember`).
    pub fn remember(&mut self, alloc: Global, leaves: u16) -> Result<(), AllocError>
        ensures { self.new ≡ self.old }
    {
        self.key.remember(alloc, leaves)
    }
}

impl Verifier for HssScheme {
    ghost use Rattle.bar_lms.specs.Hss.{hss_leaf_in, hss_most_steps, hss_signature_len, hss_steps_taken, is_hss_accepted};

    ghost is_accepted = { λ s key message sig. is_hss_accepted s.key.top s.key.low key message sig };

    ghost signature_len = { λ s. hss_signature_len s.key.top s.key.low };

    ghost steps_taken = { λ s key message sig. hss_steps_taken s.key.top s.key.low key message sig };

    ghost most_steps = { λ s. hss_most_steps s.key.top s.key.low };

    ghost leaf_named = { λ s sig. hss_leaf_in s.key.top sig };

    fn sig_len(&self) -> usize {
        signature_len(self.key.top(), self.key.low())
    }

    fn most(&self) -> u32 {
        self.key.top().most() + self.key.low().most()
    }

    fn accepts<L: Ledger>(
        &self,
        key: &[u8],
        message: &[u8],
        sig: &[u8],
        steps: &mut Steps<L>,
    ) -> bool {
        accepts_by(self.key.top(), self.key.low(), key, message, sig, steps)
    }

    fn leaf_in(&self, sig: &[u8]) -> u32 {
        leaf_in(self.key.top(), self.key.low(), sig)
    }
}

impl Scheme for HssScheme {
    ghost use Rattle.bar_lms.specs.Hss.{hss_leaves, hss_public_key, hss_signed};
    ghost use Rattle.bar_hss.specs.Laws.{signed_is_accepted, signed_has_its_length, signed_names_its_leaf};

    ghost key_of = { λ s. hss_public_key s.key };

    ghost leaf_count = { λ s. hss_leaves s.key.top s.key.low };

    ghost signed = { λ s leaf message. hss_signed s.key leaf message };

    ghost signed_is_accepted = { λ s leaf message below. signed_is_accepted s.key leaf message below };

    ghost signed_has_its_length = { λ s leaf message below. signed_has_its_length s.key leaf message below };

    ghost signed_names_its_leaf = { λ s leaf message below. signed_names_its_leaf s.key leaf message s.five below };

    fn leaves(&self) -> u32 {
        self.key.leaves()
    }

    fn sign(&self, leaf: u32, message: &[u8], out: &mut [u8]) -> usize {
        self.key.sign(leaf, message, out)
    }
}
