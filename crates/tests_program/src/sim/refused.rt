//! Scripts that are none.

use super::runs::Script;

/// Scripts, and the line of each one's first fault.
pub static REFUSED: [Script; 15] = [
    ("create 1 7\n", 1, "line 1: NoCores\n"),
    ("cores\n", 1, "line 1: BadLine\n"),
    ("cores 1 x\n", 1, "line 1: BadNumber\n"),
    ("cores 5\ncores 5\n", 1, "line 2: Twice\n"),
    ("cores 5\nrx 0 p\n", 1, "line 2: NoName\n"),
    ("cores 5\npacket p abc\n", 1, "line 2: BadBody hex\n"),
    (
        "cores 5\nasm f\nldq [0]\nend\n",
        1,
        "line 2: BadBody asm 1 Mnemonic\n",
    ),
    ("# nothing\n\n", 1, "line 1: NoCores\n"),
    ("cores 9\nrx 0 p\nstart x\n", 1, "line 2: NoName\n"),
    ("limits 0 1\ncores 9\n", 1, "line 1: BadNumber\n"),
    ("limits 1 65537\ncores 9\n", 1, "line 1: BadNumber\n"),
    (
        "limits 1 65536\nlimits 1 1\ncores 9\n",
        1,
        "line 2: Twice\n",
    ),
    ("cores 9\nlimits 1 1\n", 1, "line 2: AfterCores\n"),
    ("cores 9 9 9 9 9 9 9 9 9\n", 1, "line 1: BadLine\n"),
    (
        "limits 1 1\ncores 9 9 9 9 9 9 9 9 9\nhome 1 9\n",
        1,
        "line 3: BadNumber\n",
    ),
];
