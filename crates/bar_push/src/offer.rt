use bar_window::{Exchange, Window};

/// The offer in the QUERY of a push: young updates that are offered and aged ones that are asked for, of the window of its round.
#[derive(Clone, Copy, Debug)]
pub(crate) struct Offer {
    pub(crate) x: Exchange,
    pub(crate) young: Window,
    pub(crate) aged: Window,
}
