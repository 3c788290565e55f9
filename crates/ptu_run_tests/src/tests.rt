mod blocks;
mod calls;
mod daemons;
mod faults;
mod pieces;
mod words;
