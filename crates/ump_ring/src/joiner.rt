//! Lines, read back as messages.
ghost use Rattle.std.specs.Prelude.{◌≡◌, ◌≤◌, ◌<◌, ◌+◌, ◌*◌, ◌-◌, ◌++◌, ◌==◌, List, ℕ, length, drop, vec_len, vec_capacity, IsTrue, ◌↔◌};
ghost use Rattle.std.specs.List.{list_all};
ghost use Rattle.ump_ring.specs.Lines as spec;

use crate::fault::LineFault;
use crate::line::{LINE_NUMBERS, Line, MESSAGE_MOST};
use std::alloc::{AllocError, Global};

/// The bytes that a line holds.
fn payload(line: &Line) -> [u8; 56]
    ensures { result ≡ spec.payload line.now }
{
    let mut bytes = [0; 56];
    for (place, word) in line[1..].iter().enumerate() {
        bytes[8 * place..8 * place + 8].copy_from_slice(&word.to_le_bytes());
    }
    bytes
}

/// Whether there are only zeros.
fn are_zeros(bytes: &[u8]) -> bool
    ensures { result ≡ list_all (λ b. b == 0) bytes.now }
{
    bytes.iter().all(|byte| *byte == 0)
}

/// Whether there are only zeros from a place on.
fn ends_in_zeros(bytes: &[u8], from: usize) -> bool
    ensures { result ≡ list_all (λ b. b == 0) (drop from bytes.now) }
{
    match bytes.get(from..) {
        Some(rest) => are_zeros(rest),
        None => true,
    }
}

/// Appends bytes, for which there is room, so that no memory is taken.
fn append(message: &mut Vec<u8>, bytes: &[u8])
    requires { vec_len message.old + length bytes.now ≤ vec_capacity message.old }
    ensures items { message.new.items ≡ message.old.items ++ bytes.now }
    ensures capacity { vec_capacity message.old ≤ vec_capacity message.new }
{
    let _ = message.extend_from_slice(bytes);
}

/// Reads lines, and says where they make up a message.
#[derive(Drop)]
pub struct Joiner {
    /// The message that was begun last, as far as it has come.
    bytes: Vec<u8>,
    /// Its length.
    size: usize,
    /// The number of the next line.
    number: u32,
    fault: Option<LineFault>,
    ghost room: { spec.message_most ≤ vec_capacity bytes },
    ghost most: { size ≤ spec.message_most },
    ghost filled: { length bytes.items ≤ size },
}

impl Joiner {
    ghost use Rattle.std.specs.Prelude.{◌≡◌, ◌≢◌, ◌+◌, ◌↔◌, ◌++◌, ◌∷◌, [], List, ℕ, None, Some, Err, IfOk, IfErr, OnOk, IsTrue};
    ghost use Rattle.ump_ring.specs.Lines.{messages_in};
    ghost use Rattle.ump_ring.specs.Reading.{line_fault};
    ghost use Rattle.ump_ring.specs.Joiners.{fault_of, number_next, size_begun, bytes_come, message_shown, AfterLines, IsJoined, shown_items, shown_list};

    /// A joiner of lines that are numbered from 0. Its room for the longest message is reserved here. The one error
    /// is that there is no memory.
    pub fn new(alloc: Global) -> Result<Joiner, AllocError>
        ensures { IfOk result (λ j. AfterLines j []) }
    {
        Ok(Joiner {
            bytes: Vec::with_capacity(alloc, MESSAGE_MOST)?,
            size: 0,
            number: 0,
            fault: None,
        })
    }

    /// Reads the next line, and says whether a message is now whole. The next line after that begins the next
    /// message. The first fault stays. Takes no memory.
    pub fn line(&mut self, line: &Line) -> Result<bool, LineFault>
        ensures read { (lines : List (List ℕ)) → AfterLines self.old lines → OnOk result (AfterLines self.new (lines ++ line.now ∷ []) × (messages_in (lines ++ line.now ∷ []) ≡ messages_in lines ++ shown_list (message_shown self.new))) }
        ensures stays { fault_of self.old ≢ None → fault_of self.new ≡ fault_of self.old }
        ensures rule { fault_of self.old ≡ None → fault_of self.new ≡ line_fault (number_next self.old) (size_begun self.old) (bytes_come self.old) line.now }
        ensures ok { IfOk result (λ whole. IsJoined self.old self.new line.now × (IsTrue whole ↔ (message_shown self.new ≢ None))) }
        ensures err { IfErr result (λ fault. (fault_of self.new ≡ Some fault) × (number_next self.new ≡ number_next self.old) × (size_begun self.new ≡ size_begun self.old) × (bytes_come self.new ≡ bytes_come self.old)) }
    {
        if let Some(fault) = self.fault {
            return Err(fault);
        }
        if let Err(fault) = self.join(line) {
            self.fault = Some(fault);
            return Err(fault);
        }
        Ok(self.bytes.len() == self.size)
    }

    /// The message, if the last line of one was read last. Takes no memory.
    pub fn message(&self) -> Option<&[u8]>
        ensures { shown_items result ≡ message_shown self.now }
    {
        if self.fault.is_none() && self.size != 0 && self.bytes.len() == self.size {
            Some(&self.bytes)
        } else {
            None
        }
    }

    /// The first fault, if a line had one. Takes no memory.
    pub fn fault(&self) -> Option<LineFault>
        ensures { result ≡ fault_of self.now }
    {
        self.fault
    }

    /// Takes a line to the message, or says what is wrong with it.
    fn join(&mut self, line: &Line) -> Result<(), LineFault>
        requires { fault_of self.old ≡ None }
        ensures ok { OnOk result ((line_fault (number_next self.old) (size_begun self.old) (bytes_come self.old) line.now ≡ None) × IsJoined self.old self.new line.now) }
        ensures err { IfErr result (λ fault. (line_fault (number_next self.old) (size_begun self.old) (bytes_come self.old) line.now ≡ Some fault) × (number_next self.new ≡ number_next self.old) × (size_begun self.new ≡ size_begun self.old) × (bytes_come self.new ≡ bytes_come self.old) × (fault_of self.new ≡ None)) }
    {
        if line[0] % LINE_NUMBERS != u64::from(self.number) {
            return Err(LineFault::OutOfSequence);
        }
        let stated = line[0] / LINE_NUMBERS;
        let is_open = self.bytes.len() < self.size;
        let is_stated = if is_open {
            stated == 0
        } else {
            1 <= stated && stated <= MESSAGE_MOST as u64
        };
        if !is_stated {
            return Err(LineFault::BadLength);
        }
        let room = if is_open {
            self.size - self.bytes.len()
        } else {
            stated as usize
        };
        let held = payload(line);
        if !ends_in_zeros(&held, room) {
            return Err(LineFault::BadLength);
        }
        if !is_open {
            self.bytes.clear();
            self.size = room;
        }
        append(&mut self.bytes, &held[..room.min(56)]);
        self.number = self.number.wrapping_add(1);
        Ok(())
    }
}
