//! The scheme of a session, of one level or of two.

ghost use Rattle.std.specs.Prelude.{◌≡◌};
ghost use Rattle.bar_hss.specs.Files.{VerifiesFor};

use crate::schemes::{HssScheme, HssVerifier};
use bar_bytes::Steps;
use bar_roster::Session;
use bar_seal::{LmsScheme, LmsVerifier, Scheme, Verifier};
use std::alloc::{AllocError, Global};
use std::sync::ledger::Ledger;

/// Acceptance of a session's signatures.
#[derive(Clone, Copy, Debug)]
pub enum SessionVerifier {
    Single(LmsVerifier),
    Double(HssVerifier),
}

/// The scheme that signs for a party of a session.
#[derive(Drop)]
pub enum SessionScheme {
    Single(LmsScheme),
    Double(HssScheme),
}

impl SessionVerifier {
    /// The verifier of a session's signatures.
    pub fn of(session: &Session) -> SessionVerifier
        ensures { VerifiesFor session.now result }
    {
        let params = session.params();
        match session.upper() {
            None => SessionVerifier::Single(LmsVerifier::new(params)),
            Some(top) => SessionVerifier::Double(HssVerifier::new(top, params)),
        }
    }
}

impl SessionScheme {
    /// Remembers the values for signing under several consecutive leaves, in place of what was remembered.
    ///
    /// A message under one of these leaves is then signed without computing a lower tree, and the same message again without a step of a
    /// chain. All memory is allocated here.
    pub fn remember(&mut self, alloc: Global, leaves: u16) -> Result<(), AllocError>
        ensures { self.new ≡ self.old }
    {
        match self {
            SessionScheme::Single(s) => s.signer.remember(alloc, leaves),
            SessionScheme::Double(s) => s.remember(alloc, leaves),
        }
    }
}

impl Verifier for SessionVerifier {
    ghost use Rattle.bar_hss.specs.Chosen.{accepted_with, length_with, steps_with, most_with, leaf_with};

    ghost is_accepted = { accepted_with };

    ghost signature_len = { length_with };

    ghost steps_taken = { steps_with };

    ghost most_steps = { most_with };

    ghost leaf_named = { leaf_with };

    fn sig_len(&self) -> usize {
        match self {
            SessionVerifier::Single(v) => v.sig_len(),
            SessionVerifier::Double(v) => v.sig_len(),
        }
    }

    fn most(&self) -> u32 {
        match self {
            SessionVerifier::Single(v) => v.most(),
            SessionVerifier::Double(v) => v.most(),
        }
    }

    fn accepts<L: Ledger>(
        &self,
        key: &[u8],
        message: &[u8],
        sig: &[u8],
        steps: &mut Steps<L>,
    ) -> bool {
        match self {
            SessionVerifier::Single(v) => v.accepts(key, message, sig, steps),
            SessionVerifier::Double(v) => v.accepts(key, message, sig, steps),
        }
    }

    fn leaf_in(&self, sig: &[u8]) -> u32 {
        match self {
            SessionVerifier::Single(v) => v.leaf_in(sig),
            SessionVerifier::Double(v) => v.leaf_in(sig),
        }
    }
}

impl Verifier for SessionScheme {
    ghost use Rattle.bar_hss.specs.Chosen.{accepted_by, length_of, steps_of, most_of, leaf_by};

    ghost is_accepted = { accepted_by };

    ghost signature_len = { length_of };

    ghost steps_taken = { steps_of };

    ghost most_steps = { most_of };

    ghost leaf_named = { leaf_by };

    fn sig_len(&self) -> usize {
        match self {
            SessionScheme::Single(s) => s.sig_len(),
            SessionScheme::Double(s) => s.sig_len(),
        }
    }

    fn most(&self) -> u32 {
        match self {
            SessionScheme::Single(s) => s.most(),
            SessionScheme::Double(s) => s.most(),
        }
    }

    fn accepts<L: Ledger>(
        &self,
        key: &[u8],
        message: &[u8],
        sig: &[u8],
        steps: &mut Steps<L>,
    ) -> bool {
        match self {
            SessionScheme::Single(s) => s.accepts(key, message, sig, steps),
            SessionScheme::Double(s) => s.accepts(key, message, sig, steps),
        }
    }

    fn leaf_in(&self, sig: &[u8]) -> u32 {
        match self {
            SessionScheme::Single(s) => s.leaf_in(sig),
            SessionScheme::Double(s) => s.leaf_in(sig),
        }
    }
}

impl Scheme for SessionScheme {
    ghost use Rattle.bar_hss.specs.Chosen.{key_of, leaves_of, signed_by, accepts_own, own_long, names_own};

    ghost key_of = { key_of };

    ghost leaf_count = { leaves_of };

    ghost signed = { signed_by };

    ghost signed_is_accepted = { accepts_own };

    ghost signed_has_its_length = { own_long };

    ghost signed_names_its_leaf = { names_own };

    fn leaves(&self) -> u32 {
        match self {
            SessionScheme::Single(s) => s.leaves(),
            SessionScheme::Double(s) => s.leaves(),
        }
    }

    fn sign(&self, leaf: u32, message: &[u8], out: &mut [u8]) -> usize {
        match self {
            SessionScheme::Single(s) => s.sign(leaf, message, out),
            SessionScheme::Double(s) => s.sign(leaf, message, out),
        }
    }
}
