//! The filters of a table, as rows.

ghost use Rattle.std.specs.Prelude.{◌≡◌, length, min};
ghost use Rattle.table_replica.specs.Lent.{shown_filter};
ghost use Rattle.mkdemux_cores.specs.Rows.{filter_row, filter_rows, laid};

use table_replica::{Filter, Replica};

/// A filter that is listed.
#[repr(C)]
#[derive(Clone, Copy, Debug, PartialEq, Eq)]
pub struct FilterRow {
    /// Its number, which no other filter ever has.
    pub id: u32,
    /// The capability that it was installed under, which may be gone.
    pub cap: u32,
    /// How many instructions its program has.
    pub count: u32,
    /// The domain that installed it.
    pub owner: u16,
    /// The endpoint that gets what it accepts.
    pub endpoint: u16,
}

/// Puts the filters of a replica's table whose ids are `from` or more at the front of a room, in order of their ids, as many as it has
/// room for, and answers how many these are. The rest of the room stays as it was.
pub fn list_filters(replica: &Replica, from: u32, room: &mut [FilterRow]) -> usize
    ensures rows { room.new ≡ laid (filter_rows from replica.now.shown.filters) room.old }
    ensures count { result ≡ min (length room.old) (length (filter_rows from replica.now.shown.filters)) }
{
    let mut count = 0;
    for filter in replica.filters_from(from) {
        if count == room.len() {
            return count;
        }
        room[count] = row_of(filter);
        count += 1;
    }
    count
}

/// The row of a filter.
fn row_of(filter: Filter<'_>) -> FilterRow
    ensures { result ≡ filter_row (shown_filter filter.entry) }
{
    FilterRow {
        id: filter.id,
        cap: filter.cap,
        count: filter.program.code().len() as u32,
        owner: filter.owner,
        endpoint: filter.endpoint,
    }
}
