//! How the outcomes of packets are shown.

ghost use Rattle.std.specs.Prelude.{◌≡◌, ◌++◌, OnOk, string_bytes};
ghost use Rattle.console.specs.Views.{first_stamp, mark, other_stamps, shown_after, shown_line, tally_line};

use crate::outcome::push_outcome;
use crate::stamp::push_time;
use capture_reader::PacketTime;
use filter_vm::Outcome;
use itoa::Buffer;
use std::alloc::AllocError;

/// How the outcomes of packets are shown.
#[derive(Clone, Copy, PartialEq, Eq, Debug)]
pub enum View {
    /// A line for each packet.
    Lines,
    /// A line for each packet, which begins with its number, from 1 on.
    Numbers,
    /// One line for all packets: how many were accepted, of how many.
    Count,
    /// The lines of `Numbers`, and then that of `Count`.
    NumbersAndCount,
    /// Nothing: the status says whether a packet was accepted.
    Quiet,
}

/// Prints the line for an outcome, where one is shown. The time stamp is shown after a number.
pub fn push_line(
    text: &mut String,
    view: View,
    number: u64,
    stamp: Option<PacketTime>,
    outcome: Outcome,
) -> Result<(), AllocError>
    ensures { OnOk result (string_bytes text.new ≡ string_bytes text.old ++ shown_line view number stamp outcome) }
{
    match view {
        View::Lines => push_outcome(text, outcome),
        View::Numbers | View::NumbersAndCount => {
            let mut digits = Buffer::new();
            text.push_str(digits.format(number))?;
            text.push_str(" ")?;
            push_mark(text, stamp)?;
            push_outcome(text, outcome)
        }
        View::Count | View::Quiet => Ok(()),
    }
}

/// Prints a time stamp and a blank, if there is one.
fn push_mark(text: &mut String, stamp: Option<PacketTime>) -> Result<(), AllocError>
    ensures { OnOk result (string_bytes text.new ≡ string_bytes text.old ++ mark stamp) }
{
    match stamp {
        None => Ok(()),
        Some(stamp) => {
            push_time(text, stamp)?;
            text.push_str(" ")
        }
    }
}

/// Takes the first time stamp, if there is one.
pub fn next_stamp(stamps: &mut &[PacketTime]) -> Option<PacketTime>
    ensures taken { result ≡ first_stamp stamps.old.now }
    ensures left { stamps.new.now ≡ other_stamps stamps.old.now }
{
    match stamps.split_first() {
        Some((stamp, others)) => {
            *stamps = others;
            Some(*stamp)
        }
        None => None,
    }
}

/// Prints the line after the last packet, where one is shown: how many packets were accepted, of how many.
pub fn push_after(
    text: &mut String,
    view: View,
    accepted: u64,
    total: u64,
) -> Result<(), AllocError>
    ensures { OnOk result (string_bytes text.new ≡ string_bytes text.old ++ shown_after view accepted total) }
{
    match view {
        View::Count | View::NumbersAndCount => push_tally(text, accepted, total),
        View::Lines | View::Numbers | View::Quiet => Ok(()),
    }
}

/// Prints how many packets were accepted, of how many.
fn push_tally(text: &mut String, accepted: u64, total: u64) -> Result<(), AllocError>
    ensures { OnOk result (string_bytes text.new ≡ string_bytes text.old ++ tally_line accepted total) }
{
    let mut digits = Buffer::new();
    text.push_str(digits.format(accepted))?;
    text.push_str(" of ")?;
    text.push_str(digits.format(total))?;
    text.push_str("\n")
}
