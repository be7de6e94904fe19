//! Tests of filters and captures by their public calls: instructions, the verifier, the machine, programs decoded before, the assembler, listings, captures.
#![tactic(auto)]

#[cfg(test)]
mod assembler;
#[cfg(test)]
mod captures;
#[cfg(test)]
mod facts;
#[cfg(test)]
mod instructions;
#[cfg(test)]
mod listings;
#[cfg(test)]
mod predecoded;
#[cfg(test)]
mod verifier;
