//! Requests.

ghost use Rattle.std.specs.Prelude.{◌≤◌, length, IfOk};
ghost use Rattle.filter_table.specs.Tables.{HasShortProgram};

use bpf_insn::{TextFault, read_ddd};
use endpoint_caps::Rights;
use filter_table::{Op, Program};
use std::alloc::Global;

/// What is asked of the table. Programs are decimal texts.
#[derive(Clone, Copy)]
pub enum Ask {
    Create(u16, u16),
    Mint(u16, u32, u16, Rights),
    Revoke(u16, u32),
    DropCap(u16, u32),
    Install(u16, u32, &'static str),
    Remove(u16, u32),
    Replace(u16, u32, &'static str),
}

/// A filter on the address resolution protocol.
pub const ARP: &str = "4,40 0 0 12,21 0 1 2054,6 0 0 4294967295,6 0 0 0";

/// A filter that accepts every packet.
pub const ALL: &str = "1,6 0 0 65535";

/// The first 64 bytes of every packet, by three instructions.
pub const THREE: &str = "3,0 0 0 0,7 0 0 0,6 0 0 64";

/// The destination, source and type of a request of the address resolution protocol.
pub const REQUEST: [u8; 14] = [
    0xff, 0xff, 0xff, 0xff, 0xff, 0xff, 0x00, 0x11, 0x22, 0x33, 0x44, 0x55, 0x08, 0x06,
];

/// The program of a decimal text.
pub fn program(alloc: Global, text: &str) -> Result<Program, TextFault>
    ensures { IfOk result (λ program. length program ≤ 4096) }
{
    let code = read_ddd(alloc, text.as_bytes())?;
    if code.len() > 4096 {
        return Err(TextFault::TooLong);
    }
    Ok(Program::from_vec(alloc, code)?)
}

/// The operation that is asked for.
pub fn op(alloc: Global, ask: Ask) -> Result<Op, TextFault>
    ensures { IfOk result HasShortProgram }
{
    Ok(match ask {
        Ask::Create(domain, endpoint) => Op::Create { domain, endpoint },
        Ask::Mint(domain, cap, to, rights) => Op::Mint {
            domain,
            cap,
            to,
            rights,
        },
        Ask::Revoke(domain, cap) => Op::Revoke { domain, cap },
        Ask::DropCap(domain, cap) => Op::DropCap { domain, cap },
        Ask::Install(domain, cap, text) => Op::Install {
            domain,
            cap,
            program: program(alloc, text)?,
        },
        Ask::Remove(domain, filter) => Op::Remove { domain, filter },
        Ask::Replace(domain, filter, text) => Op::Replace {
            domain,
            filter,
            program: program(alloc, text)?,
        },
    })
}
