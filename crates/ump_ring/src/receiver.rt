//! The end of a ring that receives.
ghost use Rattle.std.specs.Prelude.{◌≡◌, IsTrue, None};
ghost use Rattle.rtrb.specs.Ring.{received};
ghost use Rattle.ump_ring.specs.Receiving.{IsReceiving, KeepsMessage};

use crate::fault::LineFault;
use crate::joiner::Joiner;
use crate::line::{LINES_MOST, Line};
use rtrb::Consumer;

/// The end of a ring that receives messages, one at a time.
pub struct Receiver {
    pub(crate) consumer: Consumer<Line>,
    joiner: Joiner,
    /// A whole message was read and is not given up.
    kept: bool,
    /// The last `pull` received a line.
    moved: bool,
    ghost receiving: { IsReceiving joiner (received consumer) },
    ghost keeps: { KeepsMessage kept joiner },
}

// By hand, so that the proofs of its owners have one call and not a drop of each part.
impl Drop for Receiver {
    fn drop(self) {
        let Receiver {
            consumer: _,
            joiner: _,
            kept: _,
            moved: _,
        } = self;
    }
}

impl Receiver {
    ghost use Rattle.std.specs.Prelude.{◌≡◌, ◌≢◌, ◌<◌, ◌≤◌, ◌+◌, ◌++◌, [], true, false, None, Some, Err, IsTrue, IsFalse, IfErr, OnOk, length};
    ghost use mathlib.Core.List.{IsPrefix};
    ghost use Rattle.rtrb.specs.Ring.{received};
    ghost use Rattle.ump_ring.specs.Lines.{messages_in};
    ghost use Rattle.ump_ring.specs.Reading.{AreSound, StopsAt};
    ghost use Rattle.ump_ring.specs.Joiners.{AfterLines, shown_items, shown_list};
    ghost use Rattle.std.specs.Borrow.{sem};
    ghost use Rattle.ump_ring.specs.Lending.{LendsLook, LendsTake};
    ghost use Rattle.ump_ring.specs.Receivers.{lines_received, lines_known, messages_taken, message_kept, stopped, has_moved, SameReceiver, message_last};

    /// The receiving end over a ring's consumer of which nothing was received, whatever writes to the ring, with a
    /// joiner that has read nothing. Takes no memory.
    pub fn new(consumer: Consumer<Line>, joiner: Joiner) -> Receiver
        requires consumer { received consumer ≡ [] }
        requires joiner { AfterLines joiner [] }
        ensures ring { result.consumer ≡ consumer }
        ensures taken { (messages_taken result ≡ []) × (message_kept result ≡ None) }
        ensures stopped { stopped result ≡ None }
    {
        Receiver {
            consumer,
            joiner,
            kept: false,
            moved: false,
        }
    }

    /// Receives lines until a whole message is kept, or there are none, as this end sees it. After a fault every call answers the same. `pull` and
    /// `shown` are `look` in two steps, for a type that holds the receiver and lends the message out of itself. Likewise
    /// `pull`, `give_up` and `last` are `take`. Takes no memory.
    pub fn pull(&mut self) -> Result<(), LineFault>
        ensures ring { SameReceiver self.old self.new }
        ensures lines { IsPrefix (lines_received self.old) (lines_received self.new) }
        ensures known { length (lines_received self.old) + length (lines_known self.old) ≤ length (lines_received self.new) + length (lines_known self.new) }
        ensures taken { messages_taken self.new ≡ messages_taken self.old }
        ensures stays { stopped self.old ≢ None → stopped self.new ≡ stopped self.old }
        ensures kept { message_kept self.old ≢ None → message_kept self.new ≡ message_kept self.old }
        ensures ok { OnOk result (stopped self.new ≡ None) }
        ensures spent { OnOk result (message_kept self.new ≡ None → lines_known self.new ≡ []) }
        ensures err { IfErr result (λ fault. (stopped self.new ≡ Some fault) × StopsAt fault (lines_received self.new)) }
        ensures still { has_moved self.new ≡ false → lines_received self.new ≡ lines_received self.old }
        ensures moved { has_moved self.new ≡ true → length (lines_received self.old) < length (lines_received self.new) }
    {
        self.moved = false;
        if let Some(fault) = self.joiner.fault() {
            return Err(fault);
        }
        if self.kept {
            return Ok(());
        }
        if self.consumer.slots() == 0 {
            return Ok(());
        }
        self.pull_lines()
    }

    /// Receives lines until a message is whole, or there are none. It stands apart, so that a look at an empty ring stays short.
    #[inline(never)]
    fn pull_lines(&mut self) -> Result<(), LineFault>
        requires runs { stopped self.old ≡ None }
        requires none_kept { self.old.kept ≡ false }
        requires none_moved { has_moved self.old ≡ false }
        ensures ring { SameReceiver self.old self.new }
        ensures lines { IsPrefix (lines_received self.old) (lines_received self.new) }
        ensures known { length (lines_received self.old) + length (lines_known self.old) ≤ length (lines_received self.new) + length (lines_known self.new) }
        ensures taken { messages_taken self.new ≡ messages_taken self.old }
        ensures ok { OnOk result (stopped self.new ≡ None) }
        ensures spent { OnOk result (message_kept self.new ≡ None → lines_known self.new ≡ []) }
        ensures err { IfErr result (λ fault. (stopped self.new ≡ Some fault) × StopsAt fault (lines_received self.new)) }
        ensures still { has_moved self.new ≡ false → lines_received self.new ≡ lines_received self.old }
        ensures moved { has_moved self.new ≡ true → length (lines_received self.old) < length (lines_received self.new) }
    {
        for _ in 0..LINES_MOST {
            let Ok(line) = self.consumer.pop() else {
                break;
            };
            self.moved = true;
            if self.joiner.line(&line)? {
                self.kept = true;
                return Ok(());
            }
        }
        Ok(())
    }

    /// Whether the last `pull` received a line, and so made room in the ring. Takes no memory.
    pub fn moved(&self) -> bool
        ensures { result ≡ has_moved self.now }
    {
        self.moved
    }

    /// A receiver that has not stopped has received no line with a fault: whatever is wrong with a line, `pull` reports it. A law:
    /// nothing is done.
    pub fn receives_sound_lines(&self)
        ensures { stopped self.now ≡ None → AreSound (lines_received self.now) }
    {
        let _ = &self.joiner;
    }

    /// The message that is kept. Takes no memory.
    pub fn shown(&self) -> Option<&[u8]>
        ensures kept { shown_items result ≡ message_kept self.now }
        ensures all { stopped self.now ≡ None → messages_taken self.now ++ shown_list (message_kept self.now) ≡ messages_in (lines_received self.now) }
    {
        if self.kept {
            self.joiner.message()
        } else {
            None
        }
    }

    /// Gives the kept message up, and says whether there was one. `last` shows it until the next `pull`. Takes no
    /// memory.
    pub fn give_up(&mut self) -> bool
        ensures ring { SameReceiver self.old self.new }
        ensures lines { lines_received self.new ≡ lines_received self.old }
        ensures known { lines_known self.new ≡ lines_known self.old }
        ensures some { IsTrue result → message_kept self.old ≢ None }
        ensures none { IsFalse result → message_kept self.old ≡ None }
        ensures kept { message_kept self.new ≡ None }
        ensures stopped { stopped self.new ≡ stopped self.old }
        ensures taken { messages_taken self.new ≡ messages_taken self.old ++ shown_list (message_kept self.old) }
        ensures all { stopped self.old ≡ None → messages_taken self.new ≡ messages_in (lines_received self.new) }
        ensures last { IsTrue result → message_last self.new ≡ message_kept self.old }
    {
        let kept = self.kept;
        self.kept = false;
        kept
    }

    /// How many lines this end knows of that it has not received. Takes no memory.
    pub fn known(&self) -> usize
        ensures { result ≡ length (lines_known self.now) }
    {
        self.consumer.cached_slots()
    }

    /// The message that was read last. Takes no memory.
    pub fn last(&self) -> Option<&[u8]>
        ensures { shown_items result ≡ message_last self.now }
    {
        self.joiner.message()
    }

    /// Lends the first whole message, and keeps it; none only where no line is left, as this end sees it. After a fault every
    /// call answers the same. Takes no memory.
    pub fn look(&mut self) -> Result<Option<&[u8]>, LineFault>
        ensures* looked { sem 𝓛 (LendsLook self.entry result) }
    {
        self.pull()?;
        Ok(self.shown())
    }

    /// Lends the first whole message, and gives it up; none only where no line is left, as this end sees it. After a fault
    /// every call answers the same. Takes no memory.
    pub fn take(&mut self) -> Result<Option<&[u8]>, LineFault>
        ensures* taken { sem 𝓛 (LendsTake self.entry result) }
    {
        self.pull()?;
        if !self.give_up() {
            return Ok(None);
        }
        Ok(self.last())
    }
}
