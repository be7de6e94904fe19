//! Tests of the table and of two-phase commit by their public calls: lists and maps, capabilities, the replica, messages, both roles.
#![tactic(auto)]

#[cfg(test)]
mod asks;
#[cfg(test)]
mod capabilities;
#[cfg(test)]
mod commit;
#[cfg(test)]
mod cores;
#[cfg(test)]
mod facts;
#[cfg(test)]
mod lists;
#[cfg(test)]
mod many;
#[cfg(test)]
mod messages;
#[cfg(test)]
mod replica;
#[cfg(test)]
mod rounds;
