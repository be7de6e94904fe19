//! Tests of captures by the public calls that read them: whole, in pieces, cut, and changed; with decimal text and expressions.
#![tactic(auto)]

#[cfg(test)]
mod blocks;
#[cfg(test)]
mod expressions;
#[cfg(test)]
mod facts;
#[cfg(test)]
mod kept;
#[cfg(test)]
mod pieces;
#[cfg(test)]
mod stamps;
