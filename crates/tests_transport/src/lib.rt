//! Tests of what carries packets and messages, by its public calls: queues, rings of lines, links, channels.
#![tactic(auto)]

#[cfg(test)]
mod channels;
#[cfg(test)]
mod facts;
#[cfg(test)]
mod links;
#[cfg(test)]
mod queues;
#[cfg(test)]
mod rings;
