//! Lines as a simulation prints them, of events that no script reaches.

use crate::facts::equal;
use pcap_reader::SharedPacket;
use seq::Shared;
use sim_lines::line_of;
use std::alloc::{AllocError, Global};
use table_replica::{Kept, Op};
use world_core::WorldFault;
use world_model::{Answer, Event, KeptList};

/// A packet of no bytes, and the endpoints that get it at the last version.
fn receipt(alloc: Global) -> Result<(Event, Answer), AllocError> {
    let event = Event::Rx {
        core: 0,
        number: 3,
        packet: SharedPacket::new(Shared::from_vec(alloc, Vec::new(alloc))?, 14),
        floor: 0,
    };
    let kept = Vec::from_slice(
        alloc,
        &[
            Kept {
                endpoint: 7,
                kept: 14,
            },
            Kept {
                endpoint: 65_535,
                kept: 4_294_967_295,
            },
        ],
    )?;
    let answer = Answer::Delivered {
        version: 18_446_744_073_709_551_615,
        kept: KeptList::from_vec(kept),
    };
    Ok((event, answer))
}

#[test]
fn the_greatest_numbers(rt: HostRuntime) {
    let (event, answer) = receipt(rt.alloc()).expect(&rt, "there is memory");
    let line = line_of(rt.alloc(), &event, &Ok(answer)).expect(&rt, "there is memory");
    let wanted = "rx 0 3: version 18446744073709551615 7=14 65535=4294967295\n";
    equal(&rt, line.as_slice(), wanted.as_bytes());
}

#[test]
fn the_last_number_is_spent(rt: HostRuntime) {
    let op = Op::Create {
        domain: 1,
        endpoint: 7,
    };
    let spent = Err(WorldFault::Spent);
    let line = line_of(rt.alloc(), &Event::Start { op }, &spent).expect(&rt, "there is memory");
    equal(&rt, line.as_slice(), b"start: fault Spent\n".as_slice());
}
