//! Link types by their names.

/// The link types that expressions know, by the names of tcpdump(1), with their numbers in captures (tcpdump.org/linktypes.html).
const LINK_NAMES: [(&str, u32); 8] = [
    ("NULL", 0),
    ("EN10MB", 1),
    ("RAW", 101),
    ("LOOP", 108),
    ("LINUX_SLL", 113),
    ("IPV4", 228),
    ("IPV6", 229),
    ("LINUX_SLL2", 276),
];

/// The number of the link type that a text names: by its name in capital letters, or by its number in decimal digits.
pub fn link_number(text: &str) -> Option<u32> {
    for row in &LINK_NAMES {
        if row.0 == text {
            return Some(row.1);
        }
    }
    match text.as_bytes().first() {
        Some(b'+') => None,
        _ => text.parse().ok(),
    }
}
