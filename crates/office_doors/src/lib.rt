//! Doors that hand out visits, the many inputs and outputs of a server.
//! It stands on the traits of the outside.
//! It promises that a visit is handed out once, and that each failure is in the object's own count.
#![tactic(auto)]

mod calls;
mod dealing;
mod door;
mod doors;
mod gate_sink;
mod given;
mod hall;
mod kept;
mod link;
mod link_sink;
mod link_source;
mod memory_door;
mod memory_doors;
mod places;
mod room;
mod tally;
mod tcp_door;
mod tcp_doors;
mod visit;

pub use door::Door;
pub use doors::{Doors, DoorsFault};
pub use gate_sink::GateSink;
pub use given::Given;
pub use link_sink::LinkSink;
pub use link_source::LinkSource;
pub use memory_door::{MemoryDoor, MemoryVisit};
pub use memory_doors::MemoryDoors;
pub use tcp_door::TcpDoor;
pub use tcp_doors::TcpDoors;
pub use visit::Visit;
