/// The most bytes of a datagram.
pub const LARGEST_DATAGRAM: u16 = 65_507;

/// How many bytes precede the fields of a datagram.
pub const HEADER_LEN: usize = 16;

/// The broadcaster's number.
pub const BROADCASTER: u16 = 0;

/// The receiver that means all peers.
pub const EVERYONE: u16 = 65_535;

/// The most bytes of content in a block. The content follows its length of two bytes.
pub const LARGEST_CONTENT: usize = 1_022;

/// How many requests of each kind of exchange a peer admits in a round; each takes a seat.
pub const SEATS_A_ROUND: u32 = 2;

/// How many exchanges a peer has in a round: for each of the two kinds, its own and one for each seat.
const EXCHANGES_A_ROUND: u32 = 2 * (1 + SEATS_A_ROUND);

/// How many messages a peer may sign in a round, each with a leaf of its own: three in an exchange.
pub const LEAVES_A_ROUND: u32 = 3 * EXCHANGES_A_ROUND;
