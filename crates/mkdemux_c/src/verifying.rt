//! The verifier.

ghost use Rattle.std.specs.Prelude.{◌≡◌, ◌<◌, ◌≤◌, ◌^◌, ◌⊎◌, length};
ghost use Rattle.bpf_insn.specs.declared.insn.Insn.{Insn};
ghost use Rattle.filter_verify.specs.declared.rules.Refusal.{Refusal};
ghost use Rattle.filter_verify.specs.Numbers.{number_of, place_of};
ghost use Rattle.filter_verify.specs.Rules.{IsWellShaped, Refuses, Sound};
ghost use Rattle.mkdemux_c.specs.Refusals.{path_of, reported, nowhere};
ghost use Rattle.mkdemux_c.specs.Rooms.{laid};

use crate::answers::{DONE, NO_MEMORY};
use crate::room::lay;
use bpf_insn::Insn;
use filter_verify::{Refusal, verify};
use std::alloc::Global;

/// Where a program is refused.
#[repr(C)]
#[derive(Clone, Copy)]
pub struct Place {
    /// The place of the instruction, counted from 0, and 0 where no single one is refused.
    pub place: u32,
    /// The scratch word that is loaded and that nothing on the path stores, and 0 for other rules.
    pub word: u32,
    /// How many places the path to that load has, its own included, and 0 for other rules.
    pub path: u32,
}

/// No place: the program is accepted, or memory ran out.
const NOWHERE: Place = Place {
    place: 0,
    word: 0,
    path: 0,
};

/// Says where a program is refused, and puts the places of the path at the front of the room.
fn report(refusal: &Refusal, path: &mut [u32]) -> Place
    requires { length (path_of refusal.now) < 2 ^ 32 }
    ensures place { result ≡ reported refusal.now }
    ensures path { path.new ≡ laid (path_of refusal.now) path.old }
{
    let place = refusal.place();
    match refusal {
        Refusal::Unwritten {
            word,
            path: places,
            ..
        } => {
            let places = places.as_slice();
            lay(places, path);
            Place {
                place,
                word: *word,
                path: places.len() as u32,
            }
        }
        _ => Place {
            place,
            word: 0,
            path: 0,
        },
    }
}

/// The number of a refusal's rule, and 255 where memory ran out.
fn answer(refusal: &Refusal) -> u32
    ensures memory { number_of refusal.now ≡ 0 → result ≡ NO_MEMORY }
    ensures rule { 0 < number_of refusal.now → result ≡ number_of refusal.now }
    ensures within { result ≤ NO_MEMORY }
{
    match refusal.number() {
        0 => NO_MEMORY,
        number => u32::from(number),
    }
}

/// 0 where the program is accepted, else the number of the first rule that it breaks, from 1 to 10, or 255 where memory ran
/// out.
///
/// `place` is written in any case. `path` gets as many places of the path to a load of an unwritten word as it has room for;
/// a room as long as the program always has room for all of them. It is as it was after them, and for any other answer.
#[unsafe(no_mangle)]
pub extern "C" fn mkdemux_verify(
    alloc: Global,
    code: &[Insn],
    place: &mut Place,
    path: &mut [u32],
) -> u32
    ensures sound { result ≡ DONE → Sound code.now }
    ensures accepts { Sound code.now → (result ≡ DONE) ⊎ (result ≡ NO_MEMORY) }

    // A refusal is one of the verifier's, and all of it is reported.
    ensures refused { 0 < result → result < NO_MEMORY → (refusal : Refusal) × Refuses code.now refusal
        × (result ≡ number_of refusal) × (place.new ≡ reported refusal) × (path.new ≡ laid (path_of refusal) path.old) }
    ensures first { (refusal : Refusal) → Refuses code.now refusal
        → (result ≡ NO_MEMORY) ⊎ ((result ≡ number_of refusal) × (place.new.place ≡ place_of refusal)) }
    ensures path_fits { place.new.path ≤ length code.now }

    // No other answer reports a place, and there is none above 255.
    ensures nothing { (result ≡ DONE) ⊎ (result ≡ NO_MEMORY) → (place.new ≡ nowhere) × (path.new ≡ path.old) }
    ensures memory { result ≡ NO_MEMORY → IsWellShaped code.now }
    ensures within { result ≤ NO_MEMORY }
{
    match verify(alloc, code) {
        Ok(_) => {
            *place = NOWHERE;
            DONE
        }
        Err(refusal) => {
            *place = report(&refusal, path);
            answer(&refusal)
        }
    }
}
