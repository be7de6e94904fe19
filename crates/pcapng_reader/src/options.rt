//! The options of a block.

ghost use Rattle.std.specs.Prelude.{◌≡◌, ◌≤◌, length, None, Some, MatchOption};
ghost use Rattle.pcapng_reader.specs.Options.{option_in, padded, resolution_in, offset_in};

use crate::fields::{short_at, signed_at};

/// The length of an option's header.
const OPTION_HEADER: usize = 4;

/// The code at the end of the options.
const END: u16 = 0;

/// The code of the resolution of time stamps.
const RESOLUTION: u16 = 9;

/// The code of the seconds to be added to time stamps.
const OFFSET: u16 = 14;

/// The resolution of time stamps where no option says it: microseconds.
const MICROSECONDS: u8 = 6;

/// The resolution of time stamps that these options give an interface.
#[tactic(auto, unfolding(crate::specs::Options::resolution_in))]
pub fn resolution_of(big: bool, options: &[u8]) -> u8
    ensures { result ≡ resolution_in big options.now }
{
    match find_option(big, RESOLUTION, options) {
        Some([resolution]) => *resolution,
        _ => MICROSECONDS,
    }
}

/// The seconds that these options have added to time stamps.
#[tactic(auto, unfolding(crate::specs::Options::offset_in))]
pub fn offset_of(big: bool, options: &[u8]) -> i64
    ensures { result ≡ offset_in big options.now }
{
    match find_option(big, OFFSET, options) {
        Some(value) if value.len() == 8 => signed_at(big, value),
        _ => 0,
    }
}

/// The value of the first option with a code.
fn find_option(big: bool, code: u16, options: &[u8]) -> Option<&[u8]>
    ensures { MatchOption result (option_in (length options.now) big code options.now ≡ None)
        (λ value. option_in (length options.now) big code options.now ≡ Some value.now) }
{
    let mut rest = options;
    while rest.len() >= OPTION_HEADER {
        let found = short_at(big, rest);
        let value = short_at(big, &rest[2..]) as usize;
        if found == END || rest.len() < OPTION_HEADER + value {
            return None;
        }
        if found == code {
            return Some(&rest[OPTION_HEADER..OPTION_HEADER + value]);
        }
        rest = &rest[rest.len().min(OPTION_HEADER + padded_to_words(value))..];
    }
    None
}

/// A length with its padding to a multiple of four.
fn padded_to_words(length: usize) -> usize
    requires { length ≤ 65535 }
    ensures { result ≡ padded length }
{
    (length + 3) / 4 * 4
}
