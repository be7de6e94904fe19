//! Tests of the program's engines by their public calls, with exact output: filters, scripts, runs. Rows of inputs and outputs that need
//! no call of their own are in the folder rows/.
#![tactic(auto)]

#[cfg(test)]
mod devices;
#[cfg(test)]
mod engines;
#[cfg(test)]
mod facts;
#[cfg(test)]
mod filters;
#[cfg(test)]
mod lines;
#[cfg(test)]
mod page;
#[cfg(test)]
mod run;
#[cfg(test)]
mod scripts;
#[cfg(test)]
mod sim;

/// Does nothing: here are tests alone.
fn main() {}
