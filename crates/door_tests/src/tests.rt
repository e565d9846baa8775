mod memory;
mod sockets;
mod threads;
