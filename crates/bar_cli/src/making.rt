//! Creating a file and then printing lines about it.
ghost use Rattle.std.specs.Prelude.{◌≡◌, ◌∷◌, Err, [], string_bytes};
ghost use Rattle.bar_outside.specs.Disk.{Content};
ghost use Rattle.bar_outside.specs.Plan.{Outside, with_files, with_out};
ghost use Rattle.bar_outside.specs.Plan.Action.{create, append, show};
ghost use Rattle.bar_outside.specs.Code.Follows.{Follows};

use bar_outside::{Fault, Files, Sink, append_file, create_file, show_bytes};

/// The bytes that are written into a new file, and the lines that are printed afterwards.
#[derive(Drop)]
pub(crate) struct Made {
    pub bytes: Vec<u8>,
    pub lines: String,
}

/// Creates and writes the file, and then prints the lines.
pub(crate) fn make_file<F: Files, K: Sink>(
    made: &Made,
    path: &str,
    files: &mut F,
    out: &mut K,
) -> Result<(), Fault>
    ensures unprinted { result ≡ Err Fault.File → K.stream out.new ≡ K.stream out.old }
    ensures follows { (w : Outside) (was : Content) →
        Follows (create path.now ∷ append path.now made.now.bytes.items ∷ show (string_bytes made.now.lines) ∷ [])
        (with_out (with_files w (F.disk files.old was)) (K.stream out.old))
        (with_out (with_files w (F.disk files.new was)) (K.stream out.new)) result }
{
    create_file(files, path)?;
    append_file(files, path, &made.bytes)?;
    show_bytes(out, made.lines.as_bytes())
}
