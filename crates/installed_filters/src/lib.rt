//! The filters of a table, changed in place: what a change needs is made before it, so that the change takes no memory and can't fail.
#![tactic(auto)]

mod books;
mod by_id;
mod changes;
mod coming;
mod endpoints;
mod filters;
mod gathering;
mod homes;
mod lapsing;
mod leaving;
mod lists;
mod numbered;
mod queries;
mod raising;
mod reaches;
mod receiving;
mod slots;

pub use filters::Filters;
pub use queries::{Filter, InstalledIter};
pub use receiving::{Receivers, Workspace};
