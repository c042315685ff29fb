//! A party that lies in the keys that it gives.
ghost use Rattle.std.specs.Prelude.{◌≡◌, ◌^◌, ◌<◌, ◌++◌, length, MatchOption, IfOk, option_map};
ghost use Rattle.bar_lms.specs.Params.{levels};
ghost use Rattle.bar_lms.specs.Secret.{signed};
ghost use Rattle.bar_lms.specs.Signature.{number_at};
ghost use Rattle.bar_wire.specs.Grammar.{message_bytes};
ghost use Rattle.bar_wire.specs.Places.{datagram_of};
ghost use Rattle.bar_wire.specs.Code.Views.{IsBody, plain, datagram};
ghost use Rattle.bar_rules.specs.Member.{Member};
ghost use Rattle.bar_world.specs.Network.{other_key, lie_in, delivery_by};
ghost use Rattle.bar_world.specs.Lies.{IsLiar, HasLeafIfSigned, IsAcceptedIn, IsKeyBody};
ghost use Rattle.bar_world.specs.Code.Moves.{plain_move};

use crate::moves::Move;
use crate::packet::Packet;
use bar_lms::SecretKey;
use bar_seal::leaf_in;
use bar_wire::{Body, Shape, View, decode, encode};
use std::alloc::{AllocError, Global};

/// A party of a session that lies in the keys that it gives, with its signing key.
#[derive(Drop)]
pub(crate) struct Liar {
    pub party: u16,
    pub shape: Shape,
    pub signer: SecretKey,
}

/// A key with the lowest bit of its first byte changed.
fn other_key(key: &[u8; 32]) -> [u8; 32]
    ensures { result ≡ other_key key.now }
{
    let mut other = *key;
    other[0] ^= 1;
    other
}

/// The number of the leaf that a signature names, or `None` if the signature is too short.
fn named_leaf(sig: &[u8]) -> Option<u32>
    ensures { MatchOption result (length sig.now < 4) (λ leaf. leaf ≡ number_at sig.now 0) }
{
    if sig.len() < 4 {
        return None;
    }
    Some(leaf_in(sig))
}

/// The length of a KEY without its signature.
const KEY_LEN: usize = 54;

impl Liar {
    /// A KEY signed with a leaf.
    #[tactic(auto, using(crate::proofs::KeyLengths::key_message_length))]
    fn signed_key(
        &self,
        alloc: Global,
        from: u16,
        to: u16,
        body: &Body<'_>,
        leaf: u32,
    ) -> Result<Vec<u8>, AllocError>
        requires body { IsBody self.now.shape body.now }
        requires key { IsKeyBody (plain body.now) }
        requires leaf { leaf < 2 ^ levels self.now.signer.params.height }
        ensures { IfOk result (λ bytes.
            let message = message_bytes self.now.shape (record { from = from; to = to; body = plain body.now }) in
            bytes.items ≡ message ++ signed self.now.signer leaf message) }
    {
        let mut bytes = vec![in alloc; 0u8; KEY_LEN]?;
        let len = encode(from, to, body, &self.shape, &mut bytes);
        let mut sig = vec![in alloc; 0u8; self.signer.params().sig_len()]?;
        let sig_len = self.signer.sign(leaf, &bytes[..len], &mut sig);
        bytes.truncate(len);
        bytes.extend_from_slice(&sig[..sig_len])?;
        Ok(bytes)
    }

    /// What is delivered in place of a KEY of the liar; `None` for any other datagram. A signature that names no leaf gives `None` too: no
    /// core sends one.
    #[tactic(auto, using(crate::proofs::Leaves::liar_signs))]
    fn lie_about(&self, alloc: Global, view: &View<'_>) -> Result<Option<Vec<u8>>, AllocError>
        requires { IsBody self.now.shape view.now.body }
        ensures { IfOk result (λ lie. (me : Member) → IsLiar me self.now → HasLeafIfSigned me.session (datagram me.session.shape view.now) →
            option_map (λ bytes. bytes.items) lie ≡ lie_in me (Some (datagram me.session.shape view.now))) }
    {
        let Body::Key {
            round,
            xkind,
            role,
            key,
        } = view.body
        else {
            return Ok(None);
        };
        if view.from != self.party {
            return Ok(None);
        }
        let Some(sig) = view.sig else {
            return Ok(None);
        };
        let Some(leaf) = named_leaf(sig) else {
            return Ok(None);
        };
        if leaf as usize >= self.signer.params().height.leaves() {
            return Ok(None);
        }
        let other = other_key(key);
        let body = Body::Key {
            round,
            xkind,
            role,
            key: &other,
        };
        let bytes = self.signed_key(alloc, view.from, view.to, &body, leaf)?;
        Ok(Some(bytes))
    }

    /// How the datagram with a number in the pool is delivered.
    pub(crate) fn delivery(
        &self,
        alloc: Global,
        number: u64,
        packet: &Packet,
    ) -> Result<Move, AllocError>
        ensures { IfOk result (λ m. (me : Member) → IsLiar me self.now → IsAcceptedIn me.session packet.now.bytes.items →
            plain_move m ≡ delivery_by number packet.now.to (lie_in me (datagram_of me.session.shape packet.now.bytes.items))) }
    {
        let Ok(view) = decode(&packet.bytes, &self.shape) else {
            return Ok(Move::Deliver(number));
        };
        match self.lie_about(alloc, &view)? {
            Some(bytes) => Ok(Move::Hostile {
                to: packet.to,
                bytes,
            }),
            None => Ok(Move::Deliver(number)),
        }
    }
}
