use std::simd::u32x8;

/// The first five words of eight blocks, a vector for each, with a lane for each block.
#[derive(Clone, Copy)]
pub struct Beginning {
    pub(crate) a: u32x8,
    pub(crate) b: u32x8,
    pub(crate) c: u32x8,
    pub(crate) d: u32x8,
    pub(crate) e: u32x8,
}
