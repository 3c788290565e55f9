mod lanes;
mod two_step_ports;
