//! Usage lines that show the standard input of a script.

use clap::Error;
use std::alloc::{AllocError, Global};
use std::fmt::Write;

/// The text of help or of a fault of the command line. The usage line of a command that takes a script says that it is on
/// standard input.
pub fn with_input(alloc: Global, error: &Error) -> Result<String, AllocError> {
    let mut text = String::new(alloc);
    write!(text, "{error}")?;
    let Some((front, end)) = parts(text.as_str()) else {
        return Ok(text);
    };
    let input = input_of(front);
    let mut shown = String::new(alloc);
    write!(shown, "{front}{input}\n{end}")?;
    Ok(shown)
}

/// The text up to the end of its usage line, and what follows that line.
fn parts(text: &str) -> Option<(&str, &str)> {
    let start = text.find("Usage: ")?;
    let length = text.get(start..)?.find("\n")?;
    let end = start.checked_add(length)?;
    Some((text.get(..end)?, text.get(end..)?.strip_prefix("\n")?))
}

/// What the command of a usage line reads. The line is the last of the text.
fn input_of(text: &str) -> &'static str {
    let (_, usage) = text.rsplit_once("Usage: ").unwrap_or(("", ""));
    match usage.split(' ').nth(1) {
        Some("sim" | "run") => " < SCRIPT",
        _ => "",
    }
}
