//! What is put into the room that a caller hands over.

ghost use Rattle.std.specs.Prelude.{◌≡◌, ◌≤◌, ◌↔◌, IsTrue, IsFalse, length};
ghost use Rattle.mkdemux_c.specs.Rooms.{laid};

/// Puts items at the front of a room, as many as it has room for.
pub fn lay<T: Copy>(items: &[T], room: &mut [T])
    ensures { room.new ≡ laid items.now room.old }
{
    let count = items.len().min(room.len());
    room[..count].copy_from_slice(&items[..count]);
}

/// Puts items at the front of a room, if it has room for all of them.
pub fn lay_all<T: Copy>(items: &[T], room: &mut [T]) -> bool
    ensures fits { IsTrue result ↔ (length items.now ≤ length room.old) }
    ensures laid { IsTrue result → room.new ≡ laid items.now room.old }
    ensures kept { IsFalse result → room.new ≡ room.old }
{
    let fits = items.len() <= room.len();
    if fits {
        lay(items, room);
    }
    fits
}
