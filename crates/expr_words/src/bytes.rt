//! Classes of bytes.

ghost use Rattle.std.specs.Prelude.{◌≡◌};
ghost use Rattle.expr_words.specs.Bytes as spec;

/// A space, a tab, or the end of a line.
pub(crate) fn is_blank(byte: u8) -> bool
    ensures { result ≡ spec.is_blank byte }
{
    byte == b' ' || byte == b'\t' || byte == b'\r' || byte == b'\n'
}

/// Whether a name goes on with the byte.
pub(crate) fn continues_name(byte: u8) -> bool
    ensures { result ≡ spec.continues_name byte }
{
    byte.is_ascii_alphanumeric() || byte == b'-' || byte == b'_' || byte == b'.'
}

/// Whether a name may end with the byte.
pub(crate) fn ends_name(byte: u8) -> bool
    ensures { result ≡ spec.ends_name byte }
{
    byte.is_ascii_alphanumeric() || byte == b'.'
}

/// Whether the byte may stand in an address with colons.
pub(crate) fn is_in_address(byte: u8) -> bool
    ensures { result ≡ spec.is_in_address byte }
{
    byte.is_ascii_hexdigit() || byte == b':' || byte == b'.'
}

/// Whether the byte may stand in an IPv4 address.
pub(crate) fn is_dotted(byte: u8) -> bool
    ensures { result ≡ spec.is_dotted byte }
{
    byte.is_ascii_digit() || byte == b'.'
}
