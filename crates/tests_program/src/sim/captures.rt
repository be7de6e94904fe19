//! Captures, and the traces of runs.

use super::runs::Script;

/// Three packets of one byte each.
pub const CAPTURE: &[u8] = b"\xd4\xc3\xb2\xa1\x02\0\x04\0\0\0\0\0\0\0\0\0\xff\xff\0\0\x01\0\0\0\
    \0\0\0\0\0\0\0\0\x01\0\0\0\x01\0\0\0\x01\
    \0\0\0\0\0\0\0\0\x01\0\0\0\x01\0\0\0\x02\
    \0\0\0\0\0\0\0\0\x01\0\0\0\x01\0\0\0\x03";

/// Scripts that name the capture, their status, and what they show.
pub static OF_CAPTURES: [Script; 3] = [
    // The packets come to the cores in turn.
    (
        "cores 9 9\n\
         capture c 1\n\
         replay c\n",
        0,
        "rx 0 1: version 0 none\n\
         rx 1 2: version 0 none\n\
         rx 0 3: version 0 none\n",
    ),
    // Packets by their places, for a filter that takes those of the byte 3; a reception that is refused is counted.
    (
        "cores 9\n\
         ddd three 4,48 0 0 0,21 0 1 3,6 0 0 1,6 0 0 0\n\
         capture c 1\n\
         create 1 7\n\
         install 1 1 three\n\
         settle\n\
         rx 1 c.3\n\
         rx 0 c.3 3\n\
         rx 0 c.2\n\
         rx 0 c.3\n",
        0,
        "start: committed 1 cap 1\n\
         start: committed 2 filter 1\n\
         rx 1 1: fault NoSuchCore\n\
         rx 0 2: fault NotReady\n\
         rx 0 3: version 2 none\n\
         rx 0 4: version 2 7=1\n",
    ),
    ("cores 9\ncapture c 2\n", 1, "line 2: NoName\n"),
];

/// The capture, cut before its last byte.
pub const CUT: &[u8] = b"\xd4\xc3\xb2\xa1\x02\0\x04\0\0\0\0\0\0\0\0\0\xff\xff\0\0\x01\0\0\0\
    \0\0\0\0\0\0\0\0\x01\0\0\0\x01\0\0\0\x01\
    \0\0\0\0\0\0\0\0\x01\0\0\0\x01\0\0\0\x02\
    \0\0\0\0\0\0\0\0\x01\0\0\0\x01\0\0\0";

pub static CUT_SCRIPTS: [Script; 1] = [(
    "cores 9\n\ncapture c 1\n",
    1,
    "line 3: BadBody capture TruncatedRecord 58\n",
)];

/// A script for a run, and what the run printed for it after `trace`.
pub static TRACED: [Script; 1] = [(
    "cores 100 100\n\
     ddd all 1,6 0 0 65535\n\
     packet q 0102030405\n\
     create 1 7\n\
     install 1 1 all\n\
     rx 1 q 2\n\
     rx 1 q 9\n\
     trace\n\
     start: prepared 1\n\
     take 1 0: prepare 1 Yes\n\
     take 0 1: vote 1 Yes committed 1 cap 1\n\
     take 1 0: commit 1 version 1\n\
     take 0 1: ack 1\n\
     start: prepared 2\n\
     take 1 0: prepare 2 Yes\n\
     take 0 1: vote 2 Yes committed 2 filter 1\n\
     take 1 0: commit 2 version 2\n\
     take 0 1: ack 2\n\
     rx 1 1: version 2 7=5\n\
     left 1 2\n",
    0,
    "start: prepared 1\n\
     take 1 0: prepare 1 Yes\n\
     take 0 1: vote 1 Yes committed 1 cap 1\n\
     take 1 0: commit 1 version 1\n\
     take 0 1: ack 1\n\
     start: prepared 2\n\
     take 1 0: prepare 2 Yes\n\
     take 0 1: vote 2 Yes committed 2 filter 1\n\
     take 1 0: commit 2 version 2\n\
     take 0 1: ack 2\n\
     rx 1 1: version 2 7=5\n",
)];
