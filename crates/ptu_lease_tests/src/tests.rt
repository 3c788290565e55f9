mod admit;
mod history;
mod laws;
mod shard;
