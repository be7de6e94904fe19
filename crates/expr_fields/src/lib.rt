//! What the tests of filter expressions ask, as parts of conditions: each adds a condition to those that are written.
#![tactic(auto)]

mod addresses;
mod draft;
mod headers;
mod items;
mod layers;
mod ports;
mod tags;
mod tests;

pub use draft::Draft;
pub use headers::there;
pub use tags::moved;
pub use tests::ask;
