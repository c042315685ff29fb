use bar_window::{MOST_ITEMS, UpdateId};

/// One item of a briefcase: the block of an update, or a piece of junk by its number in its exchange.
#[derive(Clone, Copy, Debug, PartialEq, Eq)]
pub enum Item {
    Update(UpdateId),
    Junk(u8),
}

/// The items that a side promises: the first `len` of `items`, updates in order and then junk from number 0 on. The other items have no
/// meaning.
#[derive(Clone, Copy, Debug, PartialEq, Eq)]
pub struct Promise {
    pub items: [Item; MOST_ITEMS],
    pub len: u8,
}
