mod grandmaster;
mod pools;
