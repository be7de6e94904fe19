//! How the times of packets are shown.

ghost use Rattle.std.specs.Prelude.{◌≡◌, ◌<◌, ◌≤◌, ◌++◌, ◌^◌, OnOk, string_bytes};
ghost use Rattle.console.specs.Stamps.{padded, parts_text, seconds_text, signed_text, stamp_text, units_text};

use capture_reader::PacketTime;
use itoa::Buffer;
use pcapng_reader::Time;
use std::alloc::AllocError;

/// The digits of nanoseconds.
const MOST_DIGITS: u8 = 9;

/// Prints when a packet was seen: seconds, and their parts with as many digits as the capture has. Where it isn't known it is `-`.
pub fn push_time(text: &mut String, time: PacketTime) -> Result<(), AllocError>
    ensures { OnOk result (string_bytes text.new ≡ string_bytes text.old ++ stamp_text time) }
{
    match time {
        PacketTime::Seconds {
            seconds,
            fraction,
            nano,
        } => push_seconds(
            text,
            u64::from(seconds),
            if nano { MOST_DIGITS } else { 6 },
            fraction,
        ),
        PacketTime::Units(time) => push_units(text, time),
        PacketTime::Unknown => text.push_str("-"),
    }
}

/// Prints a time in units of an interface's resolution.
fn push_units(text: &mut String, time: Time) -> Result<(), AllocError>
    ensures { OnOk result (string_bytes text.new ≡ string_bytes text.old ++ units_text time) }
{
    let digits = time.resolution.min(MOST_DIGITS);
    let stamp = time.stamp();
    let parts = stamp.nanoseconds / power_of_ten(MOST_DIGITS - digits);
    push_signed(text, stamp.seconds, digits, parts)
}

/// Prints seconds and the parts after them as one number.
fn push_signed(text: &mut String, seconds: i64, digits: u8, parts: u32) -> Result<(), AllocError>
    requires { digits ≤ MOST_DIGITS }
    ensures { OnOk result (string_bytes text.new ≡ string_bytes text.old ++ signed_text seconds digits parts) }
{
    let whole = seconds.unsigned_abs();
    if seconds >= 0 {
        return push_seconds(text, whole, digits, parts);
    }
    text.push_str("-")?;
    if parts == 0 {
        return push_seconds(text, whole, digits, 0);
    }
    let left = power_of_ten(digits).saturating_sub(parts);
    push_seconds(text, whole.saturating_sub(1), digits, left)
}

/// Prints seconds and their parts.
fn push_seconds(text: &mut String, seconds: u64, digits: u8, parts: u32) -> Result<(), AllocError>
    ensures { OnOk result (string_bytes text.new ≡ string_bytes text.old ++ seconds_text seconds digits parts) }
{
    let mut shown = Buffer::new();
    text.push_str(shown.format(seconds))?;
    push_parts(text, digits, parts)
}

/// Prints parts of a second with so many digits, if any, and a point before them.
fn push_parts(text: &mut String, digits: u8, parts: u32) -> Result<(), AllocError>
    ensures { OnOk result (string_bytes text.new ≡ string_bytes text.old ++ parts_text digits parts) }
{
    if digits == 0 {
        return Ok(());
    }
    text.push_str(".")?;
    push_padded(text, usize::from(digits), parts)
}

/// So many tens, multiplied.
fn power_of_ten(count: u8) -> u32
    requires { count ≤ MOST_DIGITS }
    ensures is { result ≡ 10 ^ count }
    ensures some { 0 < result }
{
    10u32.pow(u32::from(count))
}

/// Prints a number with zeros before it, up to a width.
fn push_padded(text: &mut String, width: usize, number: u32) -> Result<(), AllocError>
    ensures { OnOk result (string_bytes text.new ≡ string_bytes text.old ++ padded width number) }
{
    let mut digits = Buffer::new();
    let shown = digits.format(number);
    let have = shown.len();
    for _zero in have..width {
        text.push_str("0")?;
    }
    text.push_str(shown)
}
