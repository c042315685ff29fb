//! The limits of updates and of what is exchanged.

/// The most rounds that an update lives.
pub const MOST_LIFE: u8 = 16;

/// The most items of a briefcase, updates and pieces of junk together; also the highest cap, and the most junk items of terms.
pub const MOST_ITEMS: usize = 16;

/// How many bytes a block has.
pub const BLOCK_SIZE: usize = 1024;

/// How many bytes a piece of junk has.
pub const JUNK_SIZE: usize = 1280;

/// The most bytes of a briefcase: those of one full of junk.
pub const LARGEST_CIPHER: usize = MOST_ITEMS * JUNK_SIZE;
