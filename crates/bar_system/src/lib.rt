//! The operating system as the program's outside: its files, streams, child programs and the loopback network. Each object has a history of
//! what was read from it, received and passed to it.
#![tactic(auto)]

mod bound;
mod held;
mod laws;
mod link;
mod outside;
mod room;
mod socket;
mod spawner;

pub use held::Lockable;
pub use laws::some_content_fits;
pub use link::RealLink;
pub use outside::{RealFiles, RealSink, Standard};
pub use socket::Socket;
pub use spawner::RealSpawner;
