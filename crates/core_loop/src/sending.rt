//! What core 0 sends: made ready before a step, and handed to its links after it.

ghost use Rattle.std.specs.Prelude.{◌≡◌, ◌≢◌, ◌<◌, ◌↔◌, ◌∷◌, [], ℕ, suc, true, All, IfOk, IsTrue, IsFalse, length};
ghost use Rattle.monitor_messages.specs.declared.message.Message.{Message as GhostMessage};
ghost use Rattle.core_steps.specs.Core0Steps.{sent, BringNoOp, CanBeCoded, RepliesAlone};
ghost use Rattle.world_model.specs.Cases.{Outgoing as GhostOutgoing, to_all, to_one};
ghost use Rattle.world_histories.specs.Histories.{with_stamp};
ghost use Rattle.core_loop.specs.Carrying.{CanCarry, Hands, HandsOut};
ghost use Rattle.core_loop.specs.Events.{IsBlocked};
ghost use Rattle.monitor_messages.specs.Carrying.{BringsOp};
ghost use Rattle.monitor_messages.specs.Coding.{Coded, IsNumbered};
ghost use Rattle.core_loop.specs.Sending.{CanBeHanded, CanBeSent, FitLink, FitOneLine, IsMade, IsPiece};

use core_links::Links;
use core_steps::Outgoing;
use monitor_messages::{Message, ShortBytes, encode, short_bytes};
use seq::Shared;
use std::alloc::{AllocError, Global};

/// Bytes that are ready to be sent: none, those of one message to each other core, shared by them or short, or short ones to the
/// core with this entry.
#[derive(Drop)]
pub(crate) enum Ready {
    Nothing,
    ToAll(Vec<Shared<u8>>),
    ShortToAll(ShortBytes),
    ShortToOne(u16, ShortBytes),
}

/// Makes ready what core 0, with so many others, sends under this stamp where it starts a request. A message to all is encoded once.
pub(crate) fn make_ready(
    alloc: Global,
    stamp: u64,
    others: u16,
    outgoing: &Outgoing,
) -> Result<Ready, AllocError>
    requires coded { CanBeCoded outgoing.now }
    requires replies { RepliesAlone outgoing.now }
    ensures made { IfOk result (IsMade others stamp (sent outgoing.now)) }
    ensures lengths { IfOk result CanBeSent }
{
    match outgoing {
        Outgoing::Nothing => Ok(Ready::Nothing),
        Outgoing::ToAll(message) => {
            let bytes = Shared::from_vec(alloc, encode(alloc, stamp, message)?)?;
            let pieces = copies(alloc, &bytes, others)?;
            Ok(Ready::ToAll(pieces))
        }
        Outgoing::ToOne(entry, message) => Ok(short_to_one(stamp, others, *entry, message)),
    }
}

/// The same of messages that bring no operation. Takes no memory.
pub(crate) fn make_short(stamp: u64, others: u16, outgoing: &Outgoing) -> Ready
    requires coded { CanBeCoded outgoing.now }
    requires no_op { BringNoOp outgoing.now }
    ensures made { IsMade others stamp (sent outgoing.now) result }
    ensures lengths { CanBeSent result }
{
    match outgoing {
        Outgoing::Nothing => Ready::Nothing,
        Outgoing::ToAll(message) => match short_bytes(stamp, message) {
            Some(bytes) => Ready::ShortToAll(bytes),
            None => unreachable!(),
        },
        Outgoing::ToOne(entry, message) => short_to_one(stamp, others, *entry, message),
    }
}

// A message that brings no operation, to the core with an entry.
fn short_to_one(stamp: u64, others: u16, entry: usize, message: &Message) -> Ready
    requires numbered { IsNumbered message.now }
    requires no_op { BringsOp message.now → ⊥ }
    ensures made { IsMade others stamp (to_one entry message.now) result }
    ensures lengths { CanBeSent result }
{
    if entry >= usize::from(others) {
        return Ready::Nothing;
    }
    match short_bytes(stamp, message) {
        Some(bytes) => Ready::ShortToOne(entry as u16, bytes),
        None => unreachable!(),
    }
}

// So many lists that share these bytes.
fn copies(alloc: Global, bytes: &Shared<u8>, count: u16) -> Result<Vec<Shared<u8>>, AllocError>
    ensures alike { IfOk result (λ pieces. All (λ piece. piece ≡ bytes.now) pieces.items) }
    ensures count { IfOk result (λ pieces. length pieces.items ≡ count) }
{
    let mut pieces = Vec::with_capacity(alloc, usize::from(count))?;
    for _i in 0..count {
        pieces.push(bytes.clone()?)?;
    }
    Ok(pieces)
}

/// Whether the links that this goes over take messages.
pub(crate) fn can_carry<L: Links>(links: &L, others: u16, outgoing: &Outgoing) -> bool
    ensures can { IsTrue result ↔ CanCarry others (sent outgoing.now) (L.view links.now) }
    ensures blocked { IsFalse result → IsBlocked others (L.view links.now) }
{
    match outgoing {
        Outgoing::Nothing => true,
        Outgoing::ToAll(_) => all_ready(links, others),
        Outgoing::ToOne(entry, _) => {
            if *entry >= usize::from(others) {
                return true;
            }
            links.ready(*entry as u16 + 1)
        }
    }
}

/// Whether the links to all others take messages.
pub(crate) fn all_ready<L: Links>(links: &L, others: u16) -> bool
    ensures all { IsTrue result ↔ ((entry : ℕ) → entry < others → (L.view links.now (suc entry)).ready ≡ true) }
    ensures blocked { IsFalse result → IsBlocked others (L.view links.now) }
{
    for entry in 0..others {
        if !links.ready(entry + 1) {
            return false;
        }
    }
    true
}

/// Hands what is ready to links that take messages.
pub(crate) fn send<L: Links>(links: &mut L, others: u16, ready: Ready)
    requires made { (stamp : ℕ) × (out : GhostOutgoing) × IsMade others stamp out ready × CanCarry others out (L.view links.old) }
    requires lengths { CanBeSent ready }
    ensures links { L.same links.old links.new }
    ensures lines { (p : ℕ) → L.flow links.new p ≡ L.flow links.old p }
    ensures sent { (stamp : ℕ) (out : GhostOutgoing) → IsMade others stamp out ready → HandsOut others stamp out (L.view links.old) (L.view links.new) }
{
    match ready {
        Ready::Nothing => {}
        Ready::ToAll(pieces) => send_all(links, others, pieces),
        Ready::ShortToAll(bytes) => send_short_to_all(links, others, &bytes),
        Ready::ShortToOne(entry, bytes) => hand_short(links, entry + 1, &bytes),
    }
}

fn send_all<L: Links>(links: &mut L, others: u16, mut pieces: Vec<Shared<u8>>)
    requires count { length pieces.items ≡ others }
    requires lengths { All FitLink pieces.items }
    requires ready { (entry : ℕ) → entry < others → (L.view links.old (suc entry)).ready ≡ true }
    ensures links { L.same links.old links.new }
    ensures lines { (p : ℕ) → L.flow links.new p ≡ L.flow links.old p }
    ensures sent { (stamp : ℕ) (m : GhostMessage) → All (λ bytes. Coded bytes stamp m) pieces.items → HandsOut others stamp (to_all m) (L.view links.old) (L.view links.new) }
{
    for entry in 0..others {
        match pieces.pop() {
            Some(piece) => hand_shared(links, entry + 1, piece),
            None => {}
        }
    }
}

fn send_short_to_all<L: Links>(links: &mut L, others: u16, bytes: &[u8])
    requires lengths { FitOneLine bytes.now }
    requires ready { (entry : ℕ) → entry < others → (L.view links.old (suc entry)).ready ≡ true }
    ensures links { L.same links.old links.new }
    ensures lines { (p : ℕ) → L.flow links.new p ≡ L.flow links.old p }
    ensures sent { (stamp : ℕ) (m : GhostMessage) → Coded bytes.now stamp m → HandsOut others stamp (to_all m) (L.view links.old) (L.view links.new) }
{
    for entry in 0..others {
        hand_short(links, entry + 1, bytes);
    }
}

/// Hands a message that others get, too, to a peer whose link takes messages.
fn hand_shared<L: Links>(links: &mut L, peer: u16, bytes: Shared<u8>)
    requires lengths { FitLink bytes }
    requires ready { (L.view links.old peer).ready ≡ true }
    ensures links { L.same links.old links.new }
    ensures lines { (p : ℕ) → L.flow links.new p ≡ L.flow links.old p }
    ensures there { (stamp : ℕ) (m : GhostMessage) → Coded bytes stamp m → Hands (L.view links.old peer) (L.view links.new peer) (with_stamp stamp (m ∷ [])) }
    ensures elsewhere { (p : ℕ) → p ≢ peer → L.view links.new p ≡ L.view links.old p }
{
    let _ = links.send_shared(peer, bytes);
}

/// Hands a message to a peer whose link takes messages.
pub(crate) fn hand<L: Links>(links: &mut L, peer: u16, piece: Vec<u8>)
    requires lengths { CanBeHanded piece }
    requires ready { (L.view links.old peer).ready ≡ true }
    ensures links { L.same links.old links.new }
    ensures lines { (p : ℕ) → L.flow links.new p ≡ L.flow links.old p }
    ensures there { (stamp : ℕ) (m : GhostMessage) → IsPiece stamp m piece → Hands (L.view links.old peer) (L.view links.new peer) (with_stamp stamp (m ∷ [])) }
    ensures elsewhere { (p : ℕ) → p ≢ peer → L.view links.new p ≡ L.view links.old p }
{
    let _ = links.send(peer, piece);
}

/// Hands a message that fits in one line to a peer whose link takes messages. Takes no memory.
pub(crate) fn hand_short<L: Links>(links: &mut L, peer: u16, bytes: &[u8])
    requires lengths { FitOneLine bytes.now }
    requires ready { (L.view links.old peer).ready ≡ true }
    ensures links { L.same links.old links.new }
    ensures lines { (p : ℕ) → L.flow links.new p ≡ L.flow links.old p }
    ensures there { (stamp : ℕ) (m : GhostMessage) → Coded bytes.now stamp m → Hands (L.view links.old peer) (L.view links.new peer) (with_stamp stamp (m ∷ [])) }
    ensures elsewhere { (p : ℕ) → p ≢ peer → L.view links.new p ≡ L.view links.old p }
{
    let _ = links.send_short(peer, bytes);
}
