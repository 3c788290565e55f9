mod daemon;
mod daemon_faults;
mod waits;
