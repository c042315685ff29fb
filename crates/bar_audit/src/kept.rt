//! What is kept of a CASE.

use bar_window::Terms;

/// How many items a CASE promises, and its terms.
#[derive(Clone, Copy, Debug)]
pub(crate) struct KeptCase {
    pub items: u8,
    pub terms: Terms,
}
