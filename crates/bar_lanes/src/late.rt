use std::simd::u32x8;

/// The summands of words 16 to 19 of eight schedules that come from words 0 to 4, a vector for each word.
#[derive(Clone, Copy)]
pub struct Late {
    pub(crate) a: u32x8,
    pub(crate) b: u32x8,
    pub(crate) c: u32x8,
    pub(crate) d: u32x8,
}
