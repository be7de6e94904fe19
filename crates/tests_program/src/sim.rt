//! Scripts, and exactly what they show; readers and writers that fail.

mod captures;
mod devices;
mod memory;
mod protocol;
mod refused;
mod runs;
mod tables;
