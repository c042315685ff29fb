//! Writing a table file.
ghost use Rattle.std.specs.Prelude.{◌≡◌, ◌≤◌, ◌++◌, length, OnOk, OnErr};
ghost use Rattle.bar_wire.specs.Grammar.{entry};

use std::alloc::AllocError;

/// Appends the entry of a MANIFEST to a table file. If memory is refused, the file is unchanged.
pub fn add_entry(out: &mut Vec<u8>, manifest: &[u8]) -> Result<(), AllocError>
    requires { length manifest.now ≤ 65535 }
    ensures ok { OnOk result (out.new.items ≡ out.old.items ++ entry manifest.now) }
    ensures err { OnErr result (out.new.items ≡ out.old.items) }
{
    let len = (manifest.len() as u16).to_be_bytes();
    out.reserve(2 + manifest.len())?;
    let Ok(()) = out.extend_from_slice(&len) else {
        unreachable!()
    };
    let Ok(()) = out.extend_from_slice(manifest) else {
        unreachable!()
    };
    Ok(())
}
