//! Tests of filter expressions and their words, and of conditions and their programs, by their public calls.
#![tactic(auto)]

#[cfg(test)]
mod conditions;
#[cfg(test)]
mod exprs;
#[cfg(test)]
mod lowering;
#[cfg(test)]
mod words;
