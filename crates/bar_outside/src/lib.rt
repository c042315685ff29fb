//! The outside as the program sees it: files, sinks, a link and child programs. Each has a fault count and a model of what it holds or did.
//! A command is a plan, which is a list of actions on the outside. One relation states which part of a plan was done.
#![tactic(auto)]

mod actions;
mod fault;
mod files;
mod laws;
mod link;
mod mem_call;
mod mem_file;
mod mem_files;
mod mem_link;
mod mem_place;
mod mem_sent;
mod mem_sink;
mod mem_spawner;
mod mem_taken;
mod schedule;
mod sink;
mod spawner;

pub use actions::{
    append_file, bind_link, create_file, read_file, receive_next, send_datagram, show_bytes,
};
pub use fault::Fault;
pub use files::{CallKind, FileFault, Files, LARGEST_FILE};
pub use laws::{
    carried_or_stopped, done_without_faults, others_stay, plans_go_in_order, stages_go_in_order,
};
pub use link::{LARGEST_PACKET, Link, LinkFault, Taken};
pub use mem_call::MemCall;
pub use mem_files::MemFiles;
pub use mem_link::MemLink;
pub use mem_place::Place;
pub use mem_sent::Sent;
pub use mem_sink::MemSink;
pub use mem_spawner::MemSpawner;
pub use mem_taken::MemTaken;
pub use sink::{Sink, SinkFault};
pub use spawner::{ChildFault, Spawner};
pub use std::alloc::AllocError as NoMemory;
