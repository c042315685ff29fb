//! Spending a key, and binding a link.
ghost use Rattle.std.specs.Prelude.{◌≡◌, ◌∷◌, [], IfOk};
ghost use Rattle.bar_outside.specs.Disk.{Content};
ghost use Rattle.bar_outside.specs.Code.MemTaken.{bound_in};
ghost use Rattle.bar_outside.specs.Plan.{Outside, with_files, with_wire};
ghost use Rattle.bar_outside.specs.Plan.Action.{append, create, link as call};
ghost use Rattle.bar_outside.specs.Plan.LinkCall.{bind};
ghost use Rattle.bar_outside.specs.Code.Follows.{Follows};
ghost use Rattle.bar_party_commands.specs.Running.{spent_text};

use bar_outside::{Fault, Files, Link, Place, append_file, bind_link, create_file};
use bar_roster::{KeyData, Session};
use bar_seeds::Secrets;
use std::alloc::{AllocError, Global};

/// The text of a spent key of the session.
pub fn spent_text(
    alloc: Global,
    session: &Session,
    secrets: &Secrets,
) -> Result<Vec<u8>, AllocError>
    ensures { IfOk result (λ text. text.items ≡ spent_text session.now secrets.now) }
{
    let shape = session.shape();
    let params = session.params();
    let (id, secret) = (shape.id, secrets.secret);
    let key = KeyData {
        party: secrets.party,
        id,
        rounds: shape.rounds,
        lms: params.lms(),
        ots: params.ots(),
        top: session.top(),
        secret,
        spent: true,
    };
    key.text(alloc)
}

/// Replaces a file's content.
pub fn write_anew<F: Files>(files: &mut F, path: &str, bytes: &[u8]) -> Result<(), Fault>
    ensures { (w : Outside) (was : Content) → Follows (create path.now ∷ append path.now bytes.now ∷ [])
        (with_files w (F.disk files.old was)) (with_files w (F.disk files.new was)) result }
{
    create_file(files, path)?;
    append_file(files, path, bytes)
}

/// Binds the link to a place.
pub fn bind_place<L: Link>(link: &mut L, place: &Place) -> Result<(), Fault>
    ensures { (w : Outside) → Follows (call (bind (bound_in place.now)) ∷ [])
        (with_wire w (L.wire link.old)) (with_wire w (L.wire link.new)) result }
{
    bind_link(link, place.me, place.port, place.begin_ms, place.tick_ms)
}
