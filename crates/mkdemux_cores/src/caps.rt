//! The capabilities of a table, as rows.

ghost use Rattle.std.specs.Prelude.{◌≡◌, length, min};
ghost use Rattle.mkdemux_cores.specs.Rows.{cap_row, cap_rows, laid, parent_number, rights_number};

use endpoint_caps::{Cap, Caps, Rights};

/// A capability that is held.
#[repr(C)]
#[derive(Clone, Copy, Debug, PartialEq, Eq)]
pub struct CapRow {
    /// Its number, which no other capability ever has.
    pub id: u32,
    /// The capability that it was minted from, or 0, which is no id.
    pub parent: u32,
    /// The endpoint whose packets it is about.
    pub endpoint: u16,
    /// The domain that holds it.
    pub holder: u16,
    /// What the holder may do: 1 to receive, 2 to mint, 3 both.
    pub rights: u8,
}

/// Puts the capabilities whose ids are `from` or more at the front of a room, in order of their ids, as many as it has room for, and
/// answers how many these are. The rest of the room stays as it was.
pub fn list_caps(caps: &Caps, from: u32, room: &mut [CapRow]) -> usize
    ensures rows { room.new ≡ laid (cap_rows from caps.now.table.held) room.old }
    ensures count { result ≡ min (length room.old) (length (cap_rows from caps.now.table.held)) }
{
    let mut count = 0;
    for entry in caps.list_from(from) {
        if count == room.len() {
            return count;
        }
        room[count] = row_of(entry.1);
        count += 1;
    }
    count
}

/// The row of a capability.
fn row_of(cap: Cap) -> CapRow
    ensures { result ≡ cap_row cap }
{
    CapRow {
        id: cap.id,
        parent: parent_number(cap.parent.id()),
        endpoint: cap.endpoint,
        holder: cap.holder,
        rights: rights_number(cap.rights),
    }
}

/// The id of a parent, or 0.
fn parent_number(parent: Option<u32>) -> u32
    ensures { result ≡ parent_number parent }
{
    match parent {
        None => 0,
        Some(id) => id,
    }
}

/// The number of a set of rights.
fn rights_number(rights: Rights) -> u8
    ensures { result ≡ rights_number rights }
{
    match rights {
        Rights::R => 1,
        Rights::M => 2,
        Rights::Rm => 3,
    }
}
