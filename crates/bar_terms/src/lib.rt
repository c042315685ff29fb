//! Tables of digests, and the terms of exchanges: what each side promises, and when terms are valid.
#![tactic(auto)]

mod counts;
mod items;
pub mod laws;
mod promised;
mod push;
mod table;
mod valid;

pub use items::{Item, Promise};
pub use promised::{balanced_count, junk_count, promise, update_count};
pub use push::{PushAnswer, push_answer};
pub use table::{Digest, Table};
pub use valid::{can_promise, offer_ok, terms_fit, terms_ok, within};
