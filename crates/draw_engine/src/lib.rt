//! The engine of `draw`: the picture of what `sim` or `run` printed.
#![tactic(auto)]

mod engine;
mod svg;
mod text;

pub use engine::run_draw;
