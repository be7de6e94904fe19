//! Rings of messages, and what is known where both ends are together.
ghost use Rattle.std.specs.Prelude.{◌≡◌, ◌≢◌, ◌<◌, ◌≤◌, ◌+◌, ◌++◌, [], None, IfOk, All, length};
ghost use mathlib.Core.List.{IsPrefix};
ghost use Rattle.ump_ring.specs.Senders.{SameSender, lines_sent, messages_offered, current, room_known, sender_capacity};
ghost use Rattle.ump_ring.specs.Receivers.{SameReceiver, lines_received, lines_known, messages_taken, message_kept, receiver_capacity, stopped};
ghost use Rattle.ump_ring.specs.Joiners.{shown_list};
ghost use Rattle.ump_ring.specs.Lines.{IsMessage, stream};
ghost use Rattle.ump_ring.specs.Ends.{AreEnds};

use crate::joiner::Joiner;
use crate::receiver::Receiver;
use crate::sender::Sender;
use rtrb::RingBuffer;
use std::alloc::{AllocError, Global};

/// A ring of `capacity` lines, whose room is reserved here, and so is the receiver's for the longest message.
/// The one error is that there is no memory.
pub fn ring(alloc: Global, capacity: usize) -> Result<(Sender, Receiver), AllocError>
    requires { 1 ≤ capacity }
    ensures ends { IfOk result (λ r. AreEnds r.0 r.1) }
    ensures capacity { IfOk result (λ r. (sender_capacity r.0 ≡ capacity) × (receiver_capacity r.1 ≡ capacity)) }
    ensures room { IfOk result (λ r. room_known r.0 ≡ capacity) }
    ensures sender { IfOk result (λ r. (messages_offered r.0 ≡ []) × (current r.0 ≡ None)) }
    ensures receiver { IfOk result (λ r. (messages_taken r.1 ≡ []) × (message_kept r.1 ≡ None) × (stopped r.1 ≡ None)) }
{
    let joiner = Joiner::new(alloc)?;
    let (producer, consumer) = RingBuffer::new(alloc, capacity)?;
    Ok((Sender::new(producer), Receiver::new(consumer, joiner)))
}

/// Shows, in a thread with both ends of a ring, that the messages taken, and then the one that is kept, begin the messages offered,
/// and that there is no fault. Then each end knows all of the ring: the lines received and those known are those sent, and each
/// place without a line is known to be free. Takes no memory.
pub fn beside(sender: &mut Sender, receiver: &mut Receiver)
    requires { AreEnds sender.old receiver.old }
    ensures sender { SameSender sender.old sender.new × (messages_offered sender.new ≡ messages_offered sender.old) × (current sender.new ≡ current sender.old) }
    ensures receiver { SameReceiver receiver.old receiver.new × (messages_taken receiver.new ≡ messages_taken receiver.old) × (message_kept receiver.new ≡ message_kept receiver.old) }
    ensures sound { (stopped receiver.old ≡ None) × (stopped receiver.new ≡ None) }
    ensures prefix { IsPrefix (messages_taken receiver.new) (messages_offered sender.new) }
    ensures kept { IsPrefix (messages_taken receiver.new ++ shown_list (message_kept receiver.new)) (messages_offered sender.new) }
    ensures going { current sender.new ≢ None → length (messages_taken receiver.new ++ shown_list (message_kept receiver.new)) < length (messages_offered sender.new) }
    ensures all { current sender.new ≡ None → length (lines_sent sender.new) ≡ length (lines_received receiver.new) → messages_taken receiver.new ++ shown_list (message_kept receiver.new) ≡ messages_offered sender.new }
    ensures within { length (lines_sent sender.new) ≤ length (stream 0 (messages_offered sender.new)) }
    ensures short { All IsMessage (messages_offered sender.new) }
    ensures sent { lines_sent sender.new ≡ lines_sent sender.old }
    ensures received { lines_received receiver.new ≡ lines_received receiver.old }
    ensures items { lines_received receiver.new ++ lines_known receiver.new ≡ lines_sent sender.new }
    ensures places { sender_capacity sender.new + length (lines_received receiver.new) ≤ room_known sender.new + length (lines_sent sender.new) }
{
    sender.producer.slots_beside(&mut receiver.consumer);
    receiver.consumer.slots_beside(&mut sender.producer);
}
