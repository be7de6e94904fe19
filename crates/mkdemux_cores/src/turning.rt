//! Turns.

ghost use Rattle.std.specs.Prelude.{◌≡◌, ◌≢◌, ◌↔◌, ◌==◌, ◌||◌, ◌<◌, cond, None, IsTrue};
ghost use Rattle.std.specs.Int.{bit_at};
ghost use Rattle.mkdemux_cores.specs.Leading.{Leads};
ghost use Rattle.mkdemux_cores.specs.Turns.{HasTurned, IsNumber, TellsNothing, WaitsInVain, plain};

use crate::answers::{CLOSED, DONE, IDLE, NO_MEMORY, PEER_CLOSED, SPENT, STOPPED};
use crate::handle::CoreHandle;
use crate::turned::{NOTHING, Turned, report};
use core_loop::{Core, RingLinks, Turn};
use monitor_2pc::MOST_CORES;
use std::alloc::Global;

/// Does one event of the core at most: it takes a message, or begins a request. 0 with what was done, else `IDLE`, `PEER_CLOSED`,
/// `STOPPED`, `SPENT`, `NO_MEMORY` or `CLOSED`, and nothing is done. A decision is told with its number: the n-th is that on the n-th
/// request that the core was asked. `turned` also says which cores may now do what they couldn't, which ones the core knows to be
/// closed, and whether a further turn of this one may do more: after `IDLE` none does until another core's turn names this one, or it
/// is asked. `PEER_CLOSED` is `IDLE` at core 0 where the change that it began can't end, since it waits for the answer of a closed core.
/// For `CLOSED` it says that nothing was done and that no turn may do more. Takes memory only where there is a message or a request.
#[unsafe(no_mangle)]
pub extern "C" fn mkdemux_turn(alloc: Global, core: &mut CoreHandle, turned: &mut Turned) -> u32
    ensures closed { result ≡ CLOSED ↔ core.old.core ≡ None }
    ensures none { result ≡ CLOSED → (core.new.core ≡ None) × TellsNothing turned.new }
    ensures turned { result ≢ CLOSED → Leads (HasTurned (plain result) turned.new) core.old.core core.new.core }
    ensures peer_closed { result ≡ PEER_CLOSED → Leads (λ before after. WaitsInVain turned.new.closed after) core.old.core core.new.core }
{
    let Some(mut open) = core.take(alloc) else {
        *turned = NOTHING;
        return CLOSED;
    };
    let answer = turn_open(&mut open, turned);
    core.put(open);
    answer
}

/// One turn of a core, with the reason where it waits in vain.
fn turn_open(core: &mut Core<RingLinks>, turned: &mut Turned) -> u32
    ensures open { result ≢ CLOSED }
    ensures turned { HasTurned (plain result) turned.new core.old core.new }
    ensures peer_closed { result ≡ PEER_CLOSED → WaitsInVain turned.new.closed core.new }
{
    let answer = turn_core(core, turned);
    if answer == IDLE && waits_in_vain(core, turned.closed) {
        return PEER_CLOSED;
    }
    answer
}

/// Whether core 0 waits for the answer of one of these cores, and no message of that one is there.
fn waits_in_vain(core: &Core<RingLinks>, closed: u64) -> bool
    ensures { IsTrue result → WaitsInVain closed core.now }
{
    if closed == 0 {
        return false;
    }
    for peer in 0..core.count().min(MOST_CORES) {
        if has_bit(closed, peer) && core.waits_for(peer) {
            return true;
        }
    }
    false
}

/// Whether the bit of this place is set.
fn has_bit(bits: u64, place: u16) -> bool
    requires { place < 64 }
    ensures { IsTrue result ↔ (bit_at bits place ≢ 0) }
{
    (bits >> place) % 2 != 0
}

/// One turn of a core. No job is ever put into its queue.
fn turn_core(core: &mut Core<RingLinks>, turned: &mut Turned) -> u32
    ensures open { result ≢ CLOSED }
    ensures own { result ≢ PEER_CLOSED }
    ensures turned { HasTurned result turned.new core.old core.new }
{
    let closed = core.closed();
    let turn = core.turn(false);
    core.are_decided();
    let number = decided(core);
    *turned = NOTHING;
    let answer = match turn {
        Turn::Did { event: _, decision } => {
            *turned = report(decision, number);
            DONE
        }
        Turn::Idle => IDLE,
        Turn::Stopped(_) => STOPPED,
        Turn::Spent => SPENT,
        Turn::NoMemory => NO_MEMORY,
    };
    turned.woken = core.woken();
    turned.more = more_after(answer);
    turned.closed = closed;
    answer
}

/// Whether a further turn may do something by itself: one did, or lacked memory, which may come.
fn more_after(answer: u32) -> u32
    ensures { result ≡ cond ((answer == DONE) || (answer == NO_MEMORY)) 1 0 }
{
    match answer {
        DONE | NO_MEMORY => 1,
        _ => 0,
    }
}

/// How many requests of a core have their decision. No count is above 2^64 - 1.
fn decided(core: &Core<RingLinks>) -> u64
    ensures { IsNumber result core.now }
{
    core.are_decided();
    let unanswered = (core.pending() as u64).saturating_add(core.under_way());
    core.given().saturating_sub(unanswered)
}
