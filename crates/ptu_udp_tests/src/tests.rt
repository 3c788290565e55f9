mod host;
mod loopback;
mod memory;
mod ports;
mod system;
mod waits;
