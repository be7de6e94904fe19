//! How the cores agree, as scripts show it.

use super::runs::Script;

/// Two requests, of which the second is committed on core 1 while packets come, and what is shown.
pub const TWO_PHASE: Script = (
    "cores 100 100\n\
     ddd arp 4,40 0 0 12,21 0 1 2054,6 0 0 4294967295,6 0 0 0\n\
     packet p ffffffffffff0011223344550806\n\
     create 1 7\n\
     settle\n\
     install 1 1 arp\n\
     start\n\
     take 1 0\n\
     take 0 1\n\
     rx 1 p\n\
     rx 0 p\n\
     take 1 0\n\
     rx 1 p\n\
     rx 1 p 3\n",
    0,
    "start: prepared 1\n\
     take 1 0: prepare 1 Yes\n\
     take 0 1: vote 1 Yes committed 1 cap 1\n\
     take 1 0: commit 1 version 1\n\
     take 0 1: ack 1\n\
     start: prepared 2\n\
     take 1 0: prepare 2 Yes\n\
     take 0 1: vote 2 Yes committed 2 filter 1\n\
     rx 1 1: version 1 none\n\
     rx 0 2: version 2 7=14\n\
     take 1 0: commit 2 version 2\n\
     rx 1 3: version 2 7=14\n\
     rx 1 4: fault NotReady\n",
);

/// Scripts, and what they show.
pub static AGREEMENT: [Script; 6] = [
    TWO_PHASE,
    // A core whose budget is too small refuses for all.
    (
        "cores 100 3\n\
         ddd arp 4,40 0 0 12,21 0 1 2054,6 0 0 4294967295,6 0 0 0\n\
         ddd three 3,0 0 0 0,7 0 0 0,6 0 0 64\n\
         create 1 7\n\
         install 1 1 arp\n\
         install 1 1 three\n\
         settle\n",
        0,
        "start: prepared 1\n\
         take 1 0: prepare 1 Yes\n\
         take 0 1: vote 1 Yes committed 1 cap 1\n\
         take 1 0: commit 1 version 1\n\
         take 0 1: ack 1\n\
         start: prepared 2\n\
         take 1 0: prepare 2 Budget\n\
         take 0 1: vote 2 Budget refused Budget core 1\n\
         take 1 0: abort 2 version 1\n\
         take 0 1: ack 2\n\
         start: prepared 3\n\
         take 1 0: prepare 3 Yes\n\
         take 0 1: vote 3 Yes committed 2 filter 1\n\
         take 1 0: commit 3 version 2\n\
         take 0 1: ack 3\n",
    ),
    // A core without memory refuses for all.
    (
        "cores 9 9\n\
         create 1 7\n\
         start\n\
         take 1 0 short\n\
         take 0 1\n\
         take 1 0\n\
         take 0 1\n\
         start\n",
        0,
        "start: prepared 1\n\
         take 1 0: prepare 1 NoMemory\n\
         take 0 1: vote 1 NoMemory refused NoMemory core 1\n\
         take 1 0: abort 1 version 0\n\
         take 0 1: ack 1\n\
         start: fault Nothing\n",
    ),
    // Events that can't be done.
    (
        "cores 9 9\n\
         create 1 7\n\
         create 1 8\n\
         start\n\
         start\n\
         take 0 1\n\
         take 2 0\n\
         show 2\n",
        0,
        "start: prepared 1\n\
         start: fault NotIdle\n\
         take 0 1: fault Nothing\n\
         take 2 0: fault NoSuchCore\n\
         show 2: fault NoSuchCore\n",
    ),
    // Requests that enter at core 1.
    (
        "cores 9 9\n\
         home 1 1\n\
         create 1 7\n\
         create 1 7\n\
         startfor 1\n\
         submit 1\n\
         submit 1\n\
         take 0 1\n\
         startfor 1\n\
         take 1 0\n\
         take 0 1\n\
         take 1 0\n\
         take 0 1\n\
         take 1 0\n\
         settle\n",
        0,
        "startfor 1: fault NoneWaiting\n\
         submit 1: sent\n\
         submit 1: fault Outstanding\n\
         take 0 1: submit\n\
         startfor 1: prepared 1\n\
         take 1 0: prepare 1 Yes\n\
         take 0 1: vote 1 Yes committed 1 cap 1\n\
         take 1 0: commit 1 version 1\n\
         take 0 1: ack 1\n\
         take 1 0: reply committed 1 cap 1\n\
         submit 1: sent\n\
         take 0 1: submit\n\
         startfor 1: refused EndpointTaken\n\
         take 1 0: reply refused EndpointTaken\n",
    ),
    // A request that can't be begun stays, and is begun once it can be.
    (
        "cores 9 9\n\
         create 1 7\n\
         create 1 8\n\
         start\n\
         start\n\
         take 1 0 short\n\
         settle\n",
        0,
        "start: prepared 1\n\
         start: fault NotIdle\n\
         take 1 0: prepare 1 NoMemory\n\
         take 0 1: vote 1 NoMemory refused NoMemory core 1\n\
         take 1 0: abort 1 version 0\n\
         take 0 1: ack 1\n\
         start: prepared 2\n\
         take 1 0: prepare 2 Yes\n\
         take 0 1: vote 2 Yes committed 1 cap 1\n\
         take 1 0: commit 2 version 1\n\
         take 0 1: ack 2\n",
    ),
];
