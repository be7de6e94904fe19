//! The commands that read standard input alone, over readers and writers in memory, some of which fail.

mod captures;
mod devices;
mod limits;
mod memory;
mod records;
mod streams;
