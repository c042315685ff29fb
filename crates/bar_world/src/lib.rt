//! All parties of a session in one place, and the simulation of a seed.
#![tactic(auto)]

mod feeding;
mod keys;
pub mod laws;
mod lies;
mod making;
mod moves;
mod moving;
mod network;
mod numbers;
mod packet;
mod seeds;
mod sessions;
mod sim_end;
mod sim_session;
mod simulation;
mod small_list;
mod told;
mod world;

pub use keys::keys_of;
pub use moves::Move;
pub use moving::run_world;
pub use numbers::Numbers;
pub use sessions::session;
pub use sim_end::SimEnd;
pub use simulation::simulate;
pub use small_list::SmallList;
pub use world::World;
