//! Buffers.
ghost use Rattle.std.specs.Prelude.{◌≡◌, IfOk, vec_len};

use std::alloc::{AllocError, Global};

/// A buffer of this many bytes.
pub fn buffer(alloc: Global, len: usize) -> Result<Vec<u8>, AllocError>
    ensures { IfOk result (λ buffer. vec_len buffer ≡ len) }
{
    let mut buffer = Vec::new(alloc);
    buffer.resize(len, 0)?;
    Ok(buffer)
}
