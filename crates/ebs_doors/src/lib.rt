//! What a server's post stands between: listeners, the connections that they give, and gates; their forms in memory,
//! and the real ones.
#![tactic(auto)]

mod conn;
mod faults;
mod gate;
mod listener;
mod memory;
mod tcp;

pub use conn::Conn;
pub use gate::{Gate, OpenGate};
pub use listener::{Accepted, Listener};
pub use memory::{MemoryConn, MemoryListener};
pub use tcp::{TcpConn, TcpDoor, TcpSink, TcpSource};
