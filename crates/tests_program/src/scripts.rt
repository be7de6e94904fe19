//! Scripts, and the items that they stand for.

use crate::facts::holds;
use endpoint_caps::Rights;
use mk_script::{Item, Script, ScriptFault, read_script};
use seq::Shared;
use std::alloc::{AllocError, Global};
use table_replica::Op;
use world_model::Event;

/// A capture of three packets of one byte each.
static CAPTURE: [u8; 75] = [
    0xd4, 0xc3, 0xb2, 0xa1, 2, 0, 4, 0, 0, 0, 0, 0, 0, 0, 0, 0, 0xff, 0xff, 0, 0, 1, 0, 0, 0, // header
    0, 0, 0, 0, 0, 0, 0, 0, 1, 0, 0, 0, 1, 0, 0, 0, 1, // first packet
    0, 0, 0, 0, 0, 0, 0, 0, 1, 0, 0, 0, 1, 0, 0, 0, 2, // second packet
    0, 0, 0, 0, 0, 0, 0, 0, 1, 0, 0, 0, 9, 0, 0, 0, 3, // third packet
];

fn file(alloc: Global, bytes: &[u8]) -> Result<Shared<u8>, AllocError> {
    Shared::from_vec(alloc, Vec::from_slice(alloc, bytes)?)
}

fn read(alloc: Global, text: &str, threads: bool) -> Option<Result<Script, ScriptFault>> {
    let bytes = text.as_bytes();
    if bytes.len() >= 1 << 20 {
        return None;
    }
    let mut files = Vec::new(alloc);
    files.push(file(alloc, &CAPTURE).ok()?).ok()?;
    files.push(file(alloc, &CAPTURE[..70]).ok()?).ok()?;
    Some(read_script(alloc, bytes, &files, threads))
}

fn rights(rights: Rights) -> &'static str {
    match rights {
        Rights::R => "r",
        Rights::M => "m",
        Rights::Rm => "rm",
    }
}

/// An operation in the words of a script.
fn op_words(alloc: Global, op: &Op) -> Option<String> {
    let words = match op {
        Op::Create { domain, endpoint } => format!(in alloc; "create {domain} {endpoint}"),
        Op::Mint {
            domain,
            cap,
            to,
            rights: given,
        } => {
            let word = rights(*given);
            format!(in alloc; "mint {domain} {cap} {to} {word}")
        }
        Op::Revoke { domain, cap } => format!(in alloc; "revoke {domain} {cap}"),
        Op::DropCap { domain, cap } => format!(in alloc; "drop {domain} {cap}"),
        Op::Install {
            domain,
            cap,
            program,
        } => {
            let len = program.as_slice().len();
            format!(in alloc; "install {domain} {cap} {len}")
        }
        Op::Remove { domain, filter } => format!(in alloc; "remove {domain} {filter}"),
        Op::Replace {
            domain,
            filter,
            program,
        } => {
            let len = program.as_slice().len();
            format!(in alloc; "replace {domain} {filter} {len}")
        }
    };
    words.ok()
}

/// An event in the words of a script.
fn event_words(alloc: Global, event: &Event) -> Option<String> {
    let words = match event {
        Event::Take { to, from, short } => format!(in alloc; "take {to} {from} {short}"),
        Event::Rx {
            core,
            number,
            packet,
            floor,
        } => {
            let len = packet.bytes().len();
            let original = packet.original();
            format!(in alloc; "rx {core} {number} {len} {original} {floor}")
        }
        _ => format!(in alloc; "other"),
    };
    words.ok()
}

/// An item in the words of a script.
fn item_words(alloc: Global, item: &Item) -> Option<String> {
    let words = match item {
        Item::Ask(core, op) => {
            let op = op_words(alloc, op)?;
            format!(in alloc; "{core}: {op}")
        }
        Item::Begin => format!(in alloc; "start"),
        Item::Submit(core) => format!(in alloc; "submit {core}"),
        Item::StartFor(core) => format!(in alloc; "startfor {core}"),
        Item::Apply(event) => {
            return event_words(alloc, event);
        }
        Item::Settle => format!(in alloc; "settle"),
        Item::Show(core) => format!(in alloc; "show {core}"),
    };
    words.ok()
}

/// The items that a text stands for, a line each.
fn items(alloc: Global, text: &str, threads: bool) -> Option<String> {
    let script = read(alloc, text, threads)?.ok()?;
    let mut lines = String::new(alloc);
    for item in script.items.as_slice() {
        let words = item_words(alloc, item)?;
        lines.push_str(words.as_str()).ok()?;
        lines.push_str("\n").ok()?;
    }
    Some(lines)
}

/// Whether a text stands for these items.
fn gives(alloc: Global, text: &str, threads: bool, want: &str) -> bool {
    match items(alloc, text, threads) {
        Some(lines) => lines.as_str() == want,
        None => false,
    }
}

/// Whether the cores of a text have these budgets.
fn has_budgets(alloc: Global, text: &str, wanted: &[u32]) -> bool {
    match read(alloc, text, false) {
        Some(Ok(script)) => script.budgets.as_slice() == wanted,
        _ => false,
    }
}

#[test]
fn every_word(rt: HostRuntime) {
    let text =
        "# each word\ncores 100 07\nasm f\nldh [12]\nret a\nend\nddd g 1,6 0 0 10 \npacket p 0aFF 60\npacket none -\ncapture c 1\nhome 2 1\ncreate 1 7\ncreate 2 8\nmint 1 1 2 r\nmint 1 1 2 m\nmint 1 1 2 rm\nrevoke 1 1\ndrop 2 2\ninstall 1 1 f\ninstall 2 1 g\nremove 1 4294967295\nreplace 1 1 g\nhome 2 0\ncreate 2 9\nstart\nsubmit 1\nstartfor 65535\ntake 1 0\ntake 0 1 short\nrx 1 p\nrx 0 none 3\nrx 0 c.2\nreplay c 18446744073709551615\nrx 0 c.1\nsettle\nshow 0";
    let want =
        "0: create 1 7\n1: create 2 8\n0: mint 1 1 2 r\n0: mint 1 1 2 m\n0: mint 1 1 2 rm\n0: revoke 1 1\n1: drop 2 2\n0: install 1 1 2\n1: install 2 1 1\n0: remove 1 4294967295\n0: replace 1 1 1\n0: create 2 9\nstart\nsubmit 1\nstartfor 65535\ntake 1 0 false\ntake 0 1 true\nrx 1 1 2 60 0\nrx 0 2 0 0 3\nrx 0 3 1 1 0\nrx 0 4 1 1 18446744073709551615\nrx 1 5 1 1 18446744073709551615\nrx 0 6 1 9 18446744073709551615\nrx 0 7 1 1 0\nsettle\nshow 0\n";
    holds(&rt, gives(rt.alloc(), text, false, want));
    holds(&rt, has_budgets(rt.alloc(), text, &[100, 7]));
}

#[test]
fn a_trace(rt: HostRuntime) {
    let alloc = rt.alloc();
    let run =
        "cores 100 100\nddd all 1,6 0 0 65535\npacket q 0102030405\ncreate 1 7\ninstall 1 1 all\nrx 1 q 2\nrx 0 q 9\n";
    holds(
        &rt,
        gives(
            alloc,
            run,
            true,
            "0: create 1 7\n0: install 1 1 1\nrx 1 1 5 5 2\nrx 0 2 5 5 9\n",
        ),
    );
    let traced =
        "cores 100 100\nddd all 1,6 0 0 65535\npacket q 0102030405\ncreate 1 7\ninstall 1 1 all\nrx 1 q 2\nrx 0 q 9\ntrace\n# what the run printed\nstart: prepared 1\nsubmit 1: sent\nstartfor 1: prepared 2\ntake 1 0: prepare 1 Yes\n take 1 0 : prepare 2 NoMemory \nrx 1 1: version 2 7=5\nrx 0 2: fault NotReady\nleft 1 2\n";
    let want =
        "0: create 1 7\n0: install 1 1 1\nstart\nsubmit 1\nstartfor 1\ntake 1 0 false\ntake 1 0 true\nrx 1 1 5 5 2\nrx 0 2 5 5 9\n";
    holds(&rt, gives(alloc, traced, false, want));
}
