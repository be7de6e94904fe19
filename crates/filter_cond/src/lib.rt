//! Conditions on packets: what filter expressions come to, and what programs are made of.
#![tactic(auto)]

mod check;
mod cond;
mod number;

pub use check::{Check, Comparison};
pub use cond::{Cond, Part};
pub use number::{Calculation, Load, Number};
