mod meeting;
mod ports;
mod streams;
