//! Laws of captures.

ghost use Rattle.std.specs.Prelude.{◌<◌, ℕ, List, All};
ghost use Rattle.capture_reader.specs.Captures.{AreFew, HasOneReading, HasReading, IsReadAsSavefile};

/// Every byte string holds something, and one thing alone.
pub fn captures_have_one_reading()
    ensures some { (bytes : List ℕ) → HasReading bytes }
    ensures one { (bytes : List ℕ) → All (λ byte. byte < 256) bytes → HasOneReading bytes }
{}

/// A capture that isn't in pcapng holds the packets of a savefile, and has its fault.
pub fn savefiles_are_read_as_such()
    ensures { (bytes : List ℕ) → IsReadAsSavefile bytes }
{}

/// Of no packet of a capture were more than 262,144 bytes captured.
pub fn captured_bytes_are_few()
    ensures { (bytes : List ℕ) → AreFew bytes }
{}
