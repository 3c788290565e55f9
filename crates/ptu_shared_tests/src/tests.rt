mod shared;
mod shared_held;
mod shared_waits;
