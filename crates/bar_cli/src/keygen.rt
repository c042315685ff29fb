//! The commands `keygen` and `hsskeygen`.
ghost use Rattle.std.specs.Prelude.{◌≡◌, ◌≢◌, ◌↔◌, Ok, Err, Some, None, false, length, IfOk, IfSome, IsTrue, option_map, string_bytes};
ghost use Rattle.bar_outside.specs.Disk.{Content};
ghost use Rattle.bar_outside.specs.Plan.{Outside, with_files, with_out};
ghost use Rattle.bar_outside.specs.Ends.{EndsWith};
ghost use Rattle.bar_outside.specs.Stages.{plan_by};
ghost use Rattle.bar_lms.specs.Params.{lms_type};
ghost use Rattle.bar_roster.specs.KeyText.{key_text_of};
ghost use Rattle.bar_cli.specs.Keygen.Plan.{HasFewLeaves, anchor_for, anchor_line, key_line, key_made, keygen_plan, leaves_for, lines_of, public_of, secret_of, secret_stages};
ghost use Rattle.bar_cli.specs.Printing.{keygen_may_print};
ghost use Rattle.bar_cli.specs.Status.{code_of_run, said_by_run, is_keygen_end};
ghost use Rattle.bar_cli.specs.Code.Views.{keygen_view};

pub mod key_types;
pub mod laws;
pub mod types;
pub mod words;

use crate::keygen::words::KeygenWords;
use crate::making::{Made, make_file};
use crate::status::Status;
use bar_hss::HssKey;
use bar_lms::{Height, Params, SecretKey};
use bar_outside::{Fault, Files, Sink, read_file};
use bar_roster::{KeyData, SessionFault, check_leaves, leaves_of};
use bar_seeds::SeedChain;
use std::alloc::{AllocError, Global};

/// Refuses too few leaves, and otherwise continues.
pub fn keygen<F: Files, K: Sink>(
    alloc: Global,
    asked: &KeygenWords<'_>,
    files: &mut F,
    out: &mut K,
) -> Result<Status, Fault>
    ensures ends { (w : Outside) (was : Content) → EndsWith (keygen_plan (keygen_view asked.now))
        (with_out (with_files w (F.disk files.old was)) (K.stream out.old))
        (with_out (with_files w (F.disk files.new was)) (K.stream out.new)) (code_of_run result) (said_by_run result) }
    ensures answers { IfOk result (λ status. IsTrue (is_keygen_end status)) }
    ensures leaves { (code_of_run result ≡ 4) ↔ HasFewLeaves (keygen_view asked.now) }
    ensures unread { (was : Content) → HasFewLeaves (keygen_view asked.now) → F.disk files.new was ≡ F.disk files.old was }
    ensures unprinted { keygen_may_print (code_of_run result) ≡ false → K.stream out.new ≡ K.stream out.old }
{
    match enough_leaves(asked) {
        Ok(()) => keygen_by_secret(alloc, asked, files, out),
        Err(fault) => Ok(Status::SessionRefused(fault)),
    }
}

// Accepts the number of leaves, or returns a fault with both numbers if there are too few.
fn enough_leaves(asked: &KeygenWords<'_>) -> Result<(), SessionFault>
    ensures value { result ≡ leaves_for (keygen_view asked.now) }
{
    let types = asked.types;
    check_leaves(asked.rounds, leaves_of(types.top, types.params))
}

// Reads the secret and continues if it has the right length.
fn keygen_by_secret<F: Files, K: Sink>(
    alloc: Global,
    asked: &KeygenWords<'_>,
    files: &mut F,
    out: &mut K,
) -> Result<Status, Fault>
    ensures ends { (w : Outside) (was : Content) → EndsWith (plan_by (secret_stages (keygen_view asked.now)))
        (with_out (with_files w (F.disk files.old was)) (K.stream out.old))
        (with_out (with_files w (F.disk files.new was)) (K.stream out.new)) (code_of_run result) (said_by_run result) }
    ensures answers { IfOk result (λ status. IsTrue (is_keygen_end status)) }
    ensures enough { code_of_run result ≢ 4 }
    ensures unprinted { keygen_may_print (code_of_run result) ≡ false → K.stream out.new ≡ K.stream out.old }
{
    let bytes = read_file(files, asked.secret)?;
    let Some(secret) = secret_of(&bytes) else {
        return Ok(Status::SecretRefused(bytes.len()));
    };
    let made = made_key(alloc, asked, &secret)?;
    make_file(&made, asked.key, files, out)?;
    Ok(Status::Done)
}

// The secret in a file's bytes, if there are 32 of them.
fn secret_of(bytes: &[u8]) -> Option<[u8; 32]>
    ensures some { IfSome result (λ secret. secret_of bytes.now ≡ Ok secret) }
    ensures none { result ≡ None → secret_of bytes.now ≡ Err (length bytes.now) }
{
    <[u8; 32]>::try_from(bytes).ok()
}

// The LMS type of the upper tree, if there is one.
fn top_number(asked: &KeygenWords<'_>) -> Option<u32>
    ensures { result ≡ option_map lms_type asked.now.types.top }
{
    Some(asked.types.top?.number())
}

// The data of the fresh key file for a secret.
fn key_made(asked: &KeygenWords<'_>, secret: &[u8; 32]) -> KeyData
    ensures { result ≡ key_made (keygen_view asked.now) secret.now }
{
    let params = asked.types.params;
    KeyData {
        party: asked.party,
        id: asked.id,
        rounds: asked.rounds,
        lms: params.lms(),
        ots: params.ots(),
        top: top_number(asked),
        secret: *secret,
        spent: false,
    }
}

// What is written and printed for the key of a secret: the text of the key file, and the lines on the party in a session's text.
fn made_key(alloc: Global, asked: &KeygenWords<'_>, secret: &[u8; 32]) -> Result<Made, AllocError>
    ensures text { IfOk result (λ made. made.bytes.items ≡ key_text_of (key_made (keygen_view asked.now) secret.now)) }
    ensures lines { IfOk result (λ made. string_bytes made.lines ≡ lines_of (keygen_view asked.now) secret.now) }
{
    let bytes = key_made(asked, secret).text(alloc)?;
    let lines = lines_of(alloc, asked, secret)?;
    Ok(Made { bytes, lines })
}

// The line of the public key and, for a peer, that of the anchor.
fn lines_of(alloc: Global, asked: &KeygenWords<'_>, secret: &[u8; 32]) -> Result<String, AllocError>
    ensures { IfOk result (λ lines. string_bytes lines ≡ lines_of (keygen_view asked.now) secret.now) }
{
    let mut lines = public_line(alloc, asked, secret)?;
    if asked.party != 0 {
        lines.push_str(anchor_line(alloc, &anchor_for(alloc, asked, secret)?)?.as_str())?;
    }
    Ok(lines)
}

// The line of the public key.
fn public_line(
    alloc: Global,
    asked: &KeygenWords<'_>,
    secret: &[u8; 32],
) -> Result<String, AllocError>
    ensures { IfOk result (λ line. string_bytes line ≡ key_line (public_of (keygen_view asked.now) secret.now)) }
{
    match asked.types.top {
        None => key_line(alloc, &single_key(alloc, asked, secret)?),
        Some(height) => key_line(alloc, &double_key(alloc, asked, height, secret)?),
    }
}

// The public key of a secret for one level (RFC 8554, 5.3).
fn single_key(
    alloc: Global,
    asked: &KeygenWords<'_>,
    secret: &[u8; 32],
) -> Result<[u8; 56], AllocError>
    requires { asked.now.types.top ≡ None }
    ensures { IfOk result (λ key. key ≡ public_of (keygen_view asked.now) secret.now) }
{
    let key = SecretKey::make(alloc, asked.types.params, &asked.id, secret)?;
    Ok(key.public())
}

// The public key of a secret for two levels (RFC 8554, 6.1).
fn double_key(
    alloc: Global,
    asked: &KeygenWords<'_>,
    height: Height,
    secret: &[u8; 32],
) -> Result<[u8; 60], AllocError>
    requires { asked.now.types.top ≡ Some height }
    ensures { IfOk result (λ key. key ≡ public_of (keygen_view asked.now) secret.now) }
{
    let low = asked.types.params;
    let top = Params {
        height,
        ots: low.ots,
    };
    let key = HssKey::make(alloc, top, low, &asked.id, secret)?;
    Ok(key.public())
}

// The end of the secret's chain of seeds.
#[tactic(auto, unfolding(crate::specs::Keygen::Plan::anchor_for))]
fn anchor_for(
    alloc: Global,
    asked: &KeygenWords<'_>,
    secret: &[u8; 32],
) -> Result<[u8; 32], AllocError>
    ensures { IfOk result (λ anchor. anchor ≡ anchor_for (keygen_view asked.now) secret.now) }
{
    let chain = SeedChain::make(alloc, &asked.id, asked.party, asked.rounds, secret)?;
    Ok(chain.anchor())
}

fn key_line(alloc: Global, key: &[u8]) -> Result<String, AllocError>
    ensures { IfOk result (λ line. string_bytes line ≡ key_line key.now) }
{
    let key = hex::encode(alloc, key)?;
    format!(in alloc; "key = \"{key}\"\n")
}

fn anchor_line(alloc: Global, anchor: &[u8; 32]) -> Result<String, AllocError>
    ensures { IfOk result (λ line. string_bytes line ≡ anchor_line anchor.now) }
{
    let anchor = hex::encode(alloc, anchor.as_slice())?;
    format!(in alloc; "anchor = \"{anchor}\"\n")
}
