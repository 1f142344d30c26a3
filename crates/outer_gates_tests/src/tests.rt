mod listening;
mod memory;
mod ports;
