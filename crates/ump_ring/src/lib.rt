#![tactic(auto)]
//! Messages from thread to thread, cut into lines of a cache line's size, which go through a ring with one
//! writer and one reader (Baumann et al., The Multikernel, SOSP 2009, section 4.6).
//!
//! A message of L bytes, 1 to 32,832, goes out as the least number of lines that holds it, 56 bytes each. A
//! line is eight words of 64 bits.
//!
//! | Word | What it holds |
//! |---|---|
//! | 0 | `length * 2^32 + number`: the length is L on a message's first line and 0 on later ones; the number counts the lines of one ring from 0, modulo 2^32 |
//! | 1 to 7 | bytes of the message, eight a word, the first byte lowest; past the message's end they are 0 |
//!
//! A line with another number than the next is OutOfSequence. Then BadLength: a first line with a length of 0
//! or above 32,832, a later line with a length other than 0, or a byte past the message's end other than 0.
//! After its first fault a receiver, or a joiner, answers that fault for ever.
//!
//! Contracts show the list of the messages offered to a sender, the one that is going out, and the list of
//! those taken from a receiver. Where both ends are in one thread, `beside` tells that the second list begins
//! the first, whatever the timing was. All memory is taken where a ring or a joiner is made.

mod fault;
mod joiner;
mod line;
mod piece;
mod receiver;
mod rings;
mod sender;

pub use fault::LineFault;
pub use joiner::Joiner;
pub use line::{LINES_MOST, Line, MESSAGE_MOST, line_at};
pub use piece::{Piece, SHORT_MOST};
pub use receiver::Receiver;
pub use rings::{beside, ring};
pub use sender::{Busy, Pushed, Sender};
