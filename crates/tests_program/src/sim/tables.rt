//! What the filter table does, as scripts show it.

use super::runs::Script;

/// Scripts, and what they show.
pub static TABLES: [Script; 5] = [
    // The greatest verdict says how many bytes an endpoint gets.
    (
        "cores 10\n\
         ddd ten 1,6 0 0 10\n\
         ddd sixty 1,6 0 0 60\n\
         packet z 00000000000000000000000000000000000000000000000000000000000000000000000000000000000000000000000000000000000000000000000000000000\n\
         create 1 7\n\
         install 1 1 ten\n\
         install 1 1 sixty\n\
         settle\n\
         rx 0 z\n",
        0,
        "start: committed 1 cap 1\n\
         start: committed 2 filter 1\n\
         start: committed 3 filter 2\n\
         rx 0 1: version 3 7=60\n",
    ),
    // A filter whose capability is revoked delivers nothing, and stays.
    (
        "cores 100\n\
         ddd all 1,6 0 0 65535\n\
         packet q 0102030405\n\
         create 1 7\n\
         mint 1 1 2 r\n\
         install 2 2 all\n\
         settle\n\
         rx 0 q\n\
         revoke 1 1\n\
         settle\n\
         rx 0 q\n\
         install 2 2 all\n\
         remove 1 1\n\
         settle\n\
         show 0\n",
        0,
        "start: committed 1 cap 1\n\
         start: committed 2 cap 2\n\
         start: committed 3 filter 1\n\
         rx 0 1: version 3 7=5\n\
         start: committed 4\n\
         rx 0 2: version 4 none\n\
         start: refused NoCap\n\
         start: refused NotOwner\n\
         show 0: version 4 caps 1 filters 1 instructions 1\n\
         cap 1 endpoint 7 holder 1 rights rm parent -\n\
         filter 1 owner 2 cap 2 endpoint 7 instructions 1\n",
    ),
    // A program that the verifier refuses.
    (
        "cores 9\n\
         ddd bad 1,2 0 0 0\n\
         create 1 7\n\
         install 1 1 bad\n\
         settle\n",
        0,
        "start: committed 1 cap 1\n\
         start: refused BadProgram 9 0\n",
    ),
    // A filter is replaced within the budget, by its owner.
    (
        "cores 3\n\
         ddd three 3,0 0 0 0,7 0 0 0,6 0 0 64\n\
         ddd all 1,6 0 0 65535\n\
         create 1 7\n\
         install 1 1 all\n\
         install 1 1 all\n\
         replace 1 1 three\n\
         remove 1 2\n\
         replace 1 1 three\n\
         replace 2 1 all\n\
         replace 1 9 all\n\
         drop 1 1\n\
         replace 1 1 all\n\
         settle\n\
         show 0\n",
        0,
        "start: committed 1 cap 1\n\
         start: committed 2 filter 1\n\
         start: committed 3 filter 2\n\
         start: refused Budget core 0\n\
         start: committed 4\n\
         start: committed 5\n\
         start: refused NotOwner\n\
         start: refused NoFilter\n\
         start: committed 6\n\
         start: refused NoCap\n\
         show 0: version 6 caps 0 filters 1 instructions 3\n\
         filter 1 owner 1 cap 1 endpoint 7 instructions 3\n",
    ),
    // A filter that is replaced keeps its place.
    (
        "cores 9\n\
         ddd three 3,0 0 0 0,7 0 0 0,6 0 0 64\n\
         ddd all 1,6 0 0 65535\n\
         create 1 7\n\
         install 1 1 all\n\
         install 1 1 all\n\
         replace 1 1 three\n\
         settle\n\
         show 0\n",
        0,
        "start: committed 1 cap 1\n\
         start: committed 2 filter 1\n\
         start: committed 3 filter 2\n\
         start: committed 4\n\
         show 0: version 4 caps 1 filters 2 instructions 4\n\
         cap 1 endpoint 7 holder 1 rights rm parent -\n\
         filter 1 owner 1 cap 1 endpoint 7 instructions 3\n\
         filter 2 owner 1 cap 1 endpoint 7 instructions 1\n",
    ),
];
