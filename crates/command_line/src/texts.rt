//! The texts of help.

/// The version, and the digest of the sources. dist/stamp.sh puts it in place of the text after `sources`.
pub(crate) const VERSION: &str =
    "0.2.0 (sources no digest: this program was built without dist/stamp.sh ........)";

pub(crate) const ABOUT: &str =
    "Run classic BPF filters on packets, and scripts on cores that replicate a table of filters, by engines that are proved";

pub(crate) const EXIT_STATUS: &str = "\
Exit status:
  0  done
  1  a refused input: its line is on standard output, but for `keep`, whose line is on standard error
  2  a fault of the command line
  3  out of memory, a FILE that can't be opened, a device that failed, or a run that halted: one line is on standard
     error, unless nobody reads the output any more
  4  `match --quiet`: no packet was accepted

docs/messages.md has each word that is printed, with its meaning and its cure.";

pub(crate) const MATCH_ABOUT: &str = "Run a filter on packets";

pub(crate) const MATCH_DETAILS: &str = "\
Run a filter on the packets of each FILE, or of standard input.

CODE is an expression, as tcpdump takes it, if it begins with a letter, `(`, `!` or `\\`: `tcp port 80 and not host 10.0.0.1`
(docs/expressions.md). All else is decimal text, as `tcpdump -ddd` prints it. With --code, CODE is the name of a file that has it.

A packet is a line with an even number of hexadecimal digits of either case, two for each byte; an empty line is an
empty packet. For each packet one line is printed:

    VERDICT STEPS

the number of bytes that the filter keeps (0: not accepted) and the number of instructions that ran. At the first line
that is no packet, `line N: BadHex` is printed and the command ends with status 1.

With --pcap, and where a FILE begins as one does, the input is a capture: a pcap savefile or pcapng, of either byte order.
--hex reads a FILE as lines all the same. The packets before a fault of the capture are run, then `fault NAME` is printed,
with the fault's place in the file where it has one, and the status is 1.

An expression is compiled for the link type of each packet's interface, or of lines for that of --link, or Ethernet. Decimal
text is written for one link type. Where the interfaces of a capture have several, one line on standard error says so, and
--link LINK runs the packets of that one alone: a number, or NULL, EN10MB (Ethernet), RAW, LOOP, LINUX_SLL (Linux's cooked
packets), IPV4, IPV6 or LINUX_SLL2.

Of several FILEs each line begins with the file's name and a colon, unless --no-filename is given; the status is the worst.

With --number each line begins with its packet's number and a blank, and with --pcap the packet's time stamp and a blank come
next: the seconds since 1970, and micro- or nanoseconds after a point, or `-` where it has none. --count prints `N of M` at the
end: so many packets were accepted, of so many that were run. It comes in place of the lines, or with --number after them.
--quiet prints nothing and ends at the first packet that is accepted, with status 0. Where none is, its status is 4, or 1 for
a refused CODE or input.

The filter is verified first: each accepted filter ends on each packet, within as many steps as it has instructions. A
CODE that is no filter, or that the verifier refuses, prints one line that says why, with status 1, and nothing is read. Of an
expression three lines on standard error say more. One that packets of a link type can't have is reported at the first of these.

An input of more than 64 MiB prints `fault InputTooLong` alone, with status 1.

With --stream the input may be of any length and come over any time. Each packet's line is written as soon as the packet is
whole and what has been read is handled, and the command ends at the first line that is no packet, or at a fault of the
capture, without reading on. It takes memory for the longest packet or line only; a line of 4 GiB is out of memory, status 3.
Without --stream nothing is printed before the input has ended. --number, --count and --quiet read as --stream does, which may
stand beside each of them.

With --explain each packet's line comes after the instructions that ran on it, each as in `check --asm` with the registers
after it, in decimal:

    lPC: INSTRUCTION A=N X=N

The last one, which ends the run, leaves them as they were. All that is printed is kept in memory to the end.";

pub(crate) const MATCH_EXAMPLE: &str = "\
Example: which of these packets are ARP?

    $ mkdemux match '4,40 0 0 12,21 0 1 2054,6 0 0 4294967295,6 0 0 0' <<END
    ffffffffffff0011223344550806
    ffffffffffff0011223344550800
    END
    4294967295 3
    0 3

The same, of a capture, by an expression:

    $ mkdemux match arp packets.pcap

Filters as tcpdump and bpf_asm write them are taken as they are:

    $ mkdemux match \"$(tcpdump -ddd -y EN10MB arp)\" packets.pcap

Packets of a device, while they come:

    # tcpdump -U -w - | mkdemux match --stream --pcap arp

Is there an ARP packet in it?

    $ mkdemux match --quiet arp packets.pcap && echo yes

Why is this packet ARP?

    $ echo ffffffffffff0011223344550806 |
      mkdemux match --explain arp
    l0: ldh [12] A=2054 X=0
    l1: jeq #2054, l2, l3 A=2054 X=0
    l2: ret #262144 A=2054 X=0
    262144 3

Exit status: 0 done; 1 a refused CODE or input, whose line is on standard output; 2 a fault of the command line; 3 out of
memory, a FILE that can't be opened or a device that failed, with one line on standard error; 4 with --quiet, where no
packet was accepted.

docs/messages.md has the meaning and the cure of each word that is printed:
  after `code`     BadNumber CountMismatch TooLong; `column C` and why an expression has no program
  after `refused`  Ancillary BadCode BadShift BadWord Empty JumpOut NoReturn Unwritten ZeroDivisor
  after `line N:`  BadHex
  after `fault`    BadByteOrder BadCaptured BadLength BadMagic BadVersion InputTooLong LengthNotRepeated NoInterface
                   TooLong TooManyInterfaces Truncated TruncatedHeader TruncatedRecord";

pub(crate) const CODE_HELP: &str =
    "The filter: an expression, such as 'tcp port 80', or decimal text, as `tcpdump -ddd` prints it";

pub(crate) const CODE_FILE_HELP: &str = "CODE is the name of a file that has the filter";

pub(crate) const HEX_HELP: &str =
    "Read lines of digits, even where a FILE begins as a capture does";

pub(crate) const NO_FILENAME_HELP: &str =
    "With several FILEs: print lines without the names of their files";

pub(crate) const INSNS_HELP: &str =
    "Read what `tcpdump -d` or `tcpdump -dd` prints in place of assembler text";

pub(crate) const DDD_HELP: &str =
    "Read decimal text in place of assembler text, and print assembler text";

pub(crate) const DUMP_STREAM_HELP: &str =
    "Print each line while the capture is read, which may be of any length";

pub(crate) const TIME_HELP: &str = "Print the time stamp of each packet after its number";

pub(crate) const PCAP_HELP: &str = "Read a capture in place of hexadecimal lines";

pub(crate) const STREAM_HELP: &str =
    "Print each outcome while the input is read, which may be of any length";

pub(crate) const NUMBER_HELP: &str =
    "Print each packet's number before its line, and with --pcap its time stamp";

pub(crate) const COUNT_HELP: &str =
    "Print how many packets were accepted, of how many, in place of the lines, or with --number after them";

pub(crate) const QUIET_HELP: &str =
    "Print nothing: status 0 at the first packet that is accepted, 4 where none is";

pub(crate) const EXPLAIN_HELP: &str =
    "Print each instruction that ran, with the registers after it";

pub(crate) const PACKETS_HELP: &str =
    "The files with the packets, one after the other; `-`, or none, is standard input";

pub(crate) const LINK_HELP: &str =
    "Run the packets of this link type of a capture alone; an expression is compiled for it, or for 1, Ethernet, on lines of digits";

pub(crate) const SHOWN_LINK_HELP: &str = "Print the packets of this link type alone";

pub(crate) const KEPT_LINK_HELP: &str =
    "Run the packets of this link type alone, and keep no others";

pub(crate) const FILTER_HELP: &str = "The file with the filter; `-`, or none, is standard input";

pub(crate) const CAPTURE_HELP: &str = "The capture; `-`, or none, is standard input";

pub(crate) const TRACE_HELP: &str = "The file with the trace; `-`, or none, is standard input";

pub(crate) const KEEP_ABOUT: &str = "Copy the packets of a capture that a filter accepts";

pub(crate) const KEEP_DETAILS: &str = "\
Copy the capture in FILE, or on standard input, to standard output, but of its packets only those that the filter accepts:
with a verdict above 0. With --not it copies those that the filter doesn't accept.

CODE is an expression, as tcpdump takes it, if it begins with a letter, `(`, `!` or `\\`: `tcp port 80 and not host 10.0.0.1`
(docs/expressions.md). All else is decimal text, as `tcpdump -ddd` prints it. With --code, CODE is the name of a file that has it.
An expression is compiled for the link type of each packet's interface; decimal text is written for one.

All else stays as it is, byte for byte and in order: of a pcap savefile its header and the records that are kept, of pcapng
each block that is no packet or whose packet is kept. A filter that accepts every packet gives the capture itself.

The capture may be of any length and come over any time: each packet is written as soon as it is whole and what has been
read is handled, and it takes memory for the longest packet or block only.

With --link LINK the filter runs on packets of that link type alone, as EN10MB, or 1, for Ethernet, and no packet of another
link type is copied, with --not neither. Without it one line on standard error says where CODE is decimal text and the
interfaces of a capture have several link types.

Standard output is a capture, so each line about what is wrong is on standard error. What was whole before a fault of the
capture is written, then `fault NAME` is printed, with the fault's place in the file where it has one, and the status is 1.
So it ends before the first packet of a link type over which the expression has a fault: `code column C KIND` and three lines
say why. For a CODE that is no filter, or that the verifier refuses, one line says why, or four of an expression, with status
1, and nothing is read or written. The status is 0 where no packet was kept, too.";

pub(crate) const KEEP_EXAMPLE: &str = "\
Example: the ARP packets of a capture, and the others

    $ mkdemux keep arp packets.pcap > arp.pcap
    $ mkdemux keep --not arp packets.pcap > others.pcap

Packets of a device, while they come:

    # tcpdump -U -w - | mkdemux keep 'tcp port 80' > web.pcap

Exit status: 0 done; 1 a refused CODE or capture, whose line is on standard error; 2 a fault of the command line; 3 out of
memory, a FILE that can't be opened or a device that failed, with one line on standard error.

docs/messages.md has the meaning and the cure of each word that is printed:
  after `code`     BadNumber CountMismatch TooLong; `column C` and why an expression has no program
  after `refused`  Ancillary BadCode BadShift BadWord Empty JumpOut NoReturn Unwritten ZeroDivisor
  after `fault`    BadByteOrder BadCaptured BadLength BadMagic BadVersion LengthNotRepeated NoInterface TooLong
                   TooManyInterfaces Truncated TruncatedHeader TruncatedRecord";

pub(crate) const NOT_HELP: &str = "Keep the packets that the filter doesn't accept";

pub(crate) const CHECK_ABOUT: &str = "Assemble a filter";

pub(crate) const CHECK_DETAILS: &str = "\
Assemble the filter in FILE, or on standard input, and print it as the decimal text that `match` takes.

With --insns it reads what `tcpdump -d` or `tcpdump -dd` prints, and with --ddd decimal text, which it prints as assembler text.

The filter is written in the mnemonics of Linux's bpf_asm: a line has any number of labels, `name:`, and one instruction at
most; `;` begins a comment. At the first fault `line N: NAME` is printed, with status 1:

    Mnemonic    there is no known mnemonic where one should be
    Operand     the operands fit no shape of the mnemonic
    Number      a number is out of range, or none
    TwiceLabel  a label is defined a second time
    TooLong     there are more than 4096 instructions
    NoLabel     a jump names a label that isn't defined
    Backward    a jump doesn't go forward
    TooFar      a conditional jump passes over more than 255 instructions

A text of more than 64 MiB prints `fault InputTooLong` alone, with status 1.

The filter is assembled and not verified: `mkdemux match CODE < /dev/null` verifies it.

With --asm it is printed as assembler text, a labelled line for each instruction. A filter with a jump to the place after
its end has none: `refused JumpOut pc P` is printed, with status 1.

With --graph its control flow is printed as text for Graphviz: a node for each instruction, as --asm prints it, and an arrow
to each instruction that may be next, `true` or `false` after a test; a return is an ellipse, and `out` is past the end. The
filter is verified. If it is refused, the title is the line by which `match` refuses it, the refused instruction is red, and
the path on which a word is unwritten is bold; the status is 0 then too.";

pub(crate) const CHECK_EXAMPLE: &str = "\
Example: write a filter and run it

    $ cat > arp.asm <<END
          ldh [12]
          jne #0x806, drop
          ret #-1
    drop: ret #0
    END
    $ mkdemux match \"$(mkdemux check < arp.asm)\" < packets.hex

Draw it:

    $ mkdemux check --graph < arp.asm | dot -Tsvg > arp.svg

Exit status: 0 done; 1 a refused text, whose line is on standard output; 2 a fault of the command line; 3 out of memory, a
FILE that can't be opened or a device that failed, with one line on standard error.

docs/messages.md has the meaning and the cure of each word that is printed:
  after `line N:`  Backward Mnemonic NoLabel Number Operand TooFar TooLong TwiceLabel
  after `refused`  Ancillary BadShift BadWord Empty JumpOut NoReturn Unwritten ZeroDivisor
  after `fault`    InputTooLong";

pub(crate) const ASM_HELP: &str = "Print assembler text in place of decimal text";

pub(crate) const GRAPH_HELP: &str =
    "Print the control flow as text for Graphviz in place of decimal text";

pub(crate) const COMPILE_ABOUT: &str = "Compile a filter expression";

pub(crate) const COMPILE_DETAILS: &str = "\
Compile a filter expression, as tcpdump takes it, and print the filter as the decimal text that `match` takes. Several words
are joined by blanks, so quotes are needed only for the signs of the shell. docs/expressions.md has the language.

The filter accepts exactly the packets of which the expression is true, and not those of which it has no value, since a byte
is asked for that isn't there or a division is by 0. It is written for one link type, --link LINK: EN10MB or 1, Ethernet; NULL
or 0, and LOOP or 108, BSD's loopback; RAW, 12 or 101, IPv4 or IPv6 alone; IPV4 or 228, IPV6 or 229; LINUX_SLL or 113, Linux's
cooked packets, LINUX_SLL2 or 276 their second version.

With --asm it is printed as assembler text, with --c as an array of C, a line for each instruction, and with --graph as text
for Graphviz, as `check --graph` draws it. With --tree the expression is printed as it was read, with all qualifiers, and
parentheses wherever `and` meets `or`.

A text that is no expression, or one that the link type can't have, has its first fault printed: `column C: ` and what is
wrong, and the text with a mark below; the status is 1.";

pub(crate) const COMPILE_EXAMPLE: &str = "\
Example: the web's packets of a capture, but for one host's

    $ mkdemux keep \"$(mkdemux compile tcp port 80 and not host 10.0.0.1)\" packets.pcap > web.pcap

    $ mkdemux compile --asm arp
    l0: ldh [12]
    l1: jeq #2054, l2, l3
    l2: ret #262144
    l3: ret #0

Exit status: 0 done; 1 a refused expression, whose lines are on standard output; 2 a fault of the command line; 3 out of
memory or a device that failed, with one line on standard error.";

pub(crate) const C_HELP: &str = "Print an array of C in place of decimal text";

pub(crate) const TREE_HELP: &str =
    "Print the expression as it was read, with all qualifiers and parentheses, in place of a program";

pub(crate) const COMPILED_LINK_HELP: &str =
    "The link type of the packets: 1, Ethernet, where none is given";

pub(crate) const SNAP_HELP: &str =
    "The verdict of an expression on accepted packets, the most bytes that are kept: 262144 where none is given";

pub(crate) const WORDS_HELP: &str = "The expression";

pub(crate) const DUMP_ABOUT: &str = "Print the header and the packets of a capture";

pub(crate) const DUMP_DETAILS: &str = "\
Print the header and the packets of the capture in FILE, or on standard input.

A capture is a pcap savefile, version 2.4, or pcapng, of either byte order. The header of a savefile, each section and
interface of pcapng and each packet are a line, and a fault, if there is one, is the last line, with status 1:

    pcap little|big micro|nano snaplen N network N
    pcapng little|big version 1.N
    interface N snaplen N network N resolution 10^-N|2^-N offset N
    N [interface I] [TIME] captured C original O HEX
    fault NAME [PLACE]

A packet's HEX is what `match` reads; it is `-` where no bytes were captured. With --time its TIME is printed, as `match
--number` prints it. A capture of more than 64 MiB prints `fault InputTooLong` alone, with status 1; with --stream it may be of
any length, and each line is written as soon as what it shows is whole and what has been read is handled.";

pub(crate) const DUMP_EXAMPLE: &str = "\
Example: the packets of a capture as lines for `match`

    $ mkdemux dump < packets.pcap | sed -n 's/.* original [0-9]* //p' | sed 's/^-$//' > packets.hex

Exit status: 0 done; 1 a refused capture, whose line is on standard output; 2 a fault of the command line; 3 out of
memory, a FILE that can't be opened or a device that failed, with one line on standard error.

docs/messages.md has the meaning and the cure of each word that is printed:
  after `fault`  BadByteOrder BadCaptured BadLength BadMagic BadVersion InputTooLong LengthNotRepeated NoInterface
                 TooLong TooManyInterfaces Truncated TruncatedHeader TruncatedRecord";

pub(crate) const SIM_ABOUT: &str = "Run a script on the model of the cores";

pub(crate) const SIM_DETAILS: &str = "\
Run the script on standard input on the model of the cores, and print a line for each event.

A script says how many cores there are, which filters and packets, what domains ask for and in which order messages are
taken and packets received. FILEs are captures: `capture NAME N` in the script is the N-th, from 1. They are opened in order,
before the script is read. A line of a script that is empty, or whose first word begins with `#`, is skipped.

    limits CAPS FILTERS   the most capabilities and filters, each 1 to 65,536
                          (without it 1,024 each); before `cores`
    cores B0 B1 ..        1 to 8 cores, after `limits` 1 to 64, each with its
                          budget; the first line but for `limits`
    asm NAME .. end,
    ddd NAME TEXT         a filter
    packet NAME HEX [N]   a packet, of N bytes before it was cut; HEX is `-`
                          for no bytes
    capture NAME N        the packets of a FILE
    home D C              requests of domain D enter at core C, not at core 0
    create D E, mint D CAP TO r|m|rm, revoke D CAP, drop D CAP,
    install D CAP NAME, remove D FILTER, replace D FILTER NAME
                          a request
    start                 begin the first request that entered at core 0
    submit C              send core 0 the first one that entered at core C
    startfor C            begin it there
    take TO FROM [short]  take the oldest message (short: out of memory)
    rx CORE NAME [FLOOR]  receive a packet; `C.I` is packet I, from 1, of
                          capture C
    replay NAME [FLOOR]   receive the packets of a capture, core by core
    settle                take every message, and begin every request
    show CORE             print a core's table
    trace                 events follow as `sim` prints them, and are done
                          again; before it are only names, requests, and rx
                          and replay, whose packets the events name

A request that is not allowed prints `refused NAME` and leaves the tables as they are; an event that can't be done prints
`fault NAME` and changes nothing. The status is 0 then too.

The script is read whole before its first event. Its first fault is printed as `line N: NAME`, with status 1:

    BadLine    an unknown word, a wrong number of words, a bad name or bad rights, `asm` without `end`
    NoCores    there is a line before `cores`
    BadNumber  a number is out of its range, or none
    Twice      there is a second `cores` or `limits`, or a name is taken
    AfterCores `limits` stands after `cores`
    NoName     there is no such filter, packet, capture or FILE
    BadBody    digits, a filter or a capture can't be read; the words of check, match or dump follow

A script or a FILE of more than 64 MiB prints `fault InputTooLong` alone, with status 1. A FILE that can't be opened is named
on standard error, with status 3.";

pub(crate) const SIM_EXAMPLE: &str = "\
Example: two filters for one endpoint, which gets the packet once, with the greatest verdict

    $ mkdemux sim <<END
    cores 10
    ddd ten 1,6 0 0 10
    ddd two 1,6 0 0 2
    packet p 000102030405060708090a0b0c0d
    create 1 7
    install 1 1 ten
    install 1 1 two
    settle
    rx 0 p
    END
    start: committed 1 cap 1
    start: committed 2 filter 1
    start: committed 3 filter 2
    rx 0 1: version 3 7=10

Exit status: 0 done; 1 a refused script or FILE, whose line is on standard output; 2 a fault of the command line; 3 out of
memory, a FILE that can't be opened or a device that failed, with one line on standard error.

docs/messages.md has the meaning and the cure of each word that is printed:
  after `line N:`  AfterCores BadBody BadLine BadNumber NoCores NoName Twice
  after `refused`  BadProgram Budget CapsFull DomainFull EndpointTaken FilterIdsSpent IdsSpent NoCap NoFilter NoMemory
                   NoRight NotHolder NotOwner RightsExceed TableFull VersionsSpent
  after `fault`    InputTooLong NoneWaiting NoSuchCore NotIdle NotReady Nothing Outstanding Spent";

pub(crate) const RUN_ABOUT: &str = "Run a script on cores that are threads";

pub(crate) const RUN_DETAILS: &str = "\
Run the script on standard input on cores that are threads, each with its own replica of the table, and print one run that
they did: a line for each event.

The script is one for `sim` without an order of events: `mkdemux sim --help` has its lines. These may stand in it:

    limits CAPS FILTERS             the most capabilities and filters; before `cores`
    cores B0 B1 ..                  1 to 8 cores, after `limits` 1 to 64, each with a budget of instructions; the first line
                                    but for `limits`
    asm NAME .. end, ddd NAME TEXT, packet NAME HEX [ORIGINAL], capture NAME N
                                    filters and packets
    home D C                        requests of domain D enter at core C, not at core 0
    create, mint, revoke, drop, install, remove, replace
                                    requests, which the core where they enter begins in this order
    rx CORE NAME [FLOOR]            a packet for a core, which receives it at version FLOOR or later
    replay NAME [FLOOR]             the packets of a capture, for the cores by turns

Each core begins its requests, takes its messages and receives its packets by itself, so two runs of a script may differ. Each
is one that the protocol allows, with the events by the cores' logical clocks: `sim` takes the script, a line `trace` and this
output, and prints the lines of its events again.

A packet whose floor is above the last version of its core is not received: after the events there is a line `left CORE NUMBER`
for each such packet, by its number. On a terminal standard error shows every second how many packets were received.

The first fault of a script is printed as by `sim`, with status 1; the words start, submit, startfor, take, settle, show and trace
are unknown here, and a core number must be one of the script's.";

pub(crate) const RUN_EXAMPLE: &str = "\
Example: two cores; the packet waits for the second version, at which there is a filter

    $ mkdemux run <<END
    cores 100 100
    ddd all 1,6 0 0 65535
    packet q 0102030405
    create 1 7
    install 1 1 all
    rx 1 q 2
    END
    start: prepared 1
    take 1 0: prepare 1 Yes
    take 0 1: vote 1 Yes committed 1 cap 1
    take 1 0: commit 1 version 1
    take 0 1: ack 1
    start: prepared 2
    take 1 0: prepare 2 Yes
    take 0 1: vote 2 Yes committed 2 filter 1
    take 1 0: commit 2 version 2
    take 0 1: ack 2
    rx 1 1: version 2 7=5

Do the same run again, one event after the other:

    $ mkdemux run < my.script > my.run
    $ (cat my.script; echo trace; cat my.run) | mkdemux sim | cmp - my.run

Exit status: 0 done; 1 a refused script or FILE, whose line is on standard output; 2 a fault of the command line; 3 out of
memory, a FILE that can't be opened, a device that failed, or a core that halted, with one line on standard error.

docs/messages.md has the meaning and the cure of each word that is printed:
  after `line N:`  AfterCores BadBody BadLine BadNumber NoCores NoName Twice
  after `refused`  BadProgram Budget CapsFull DomainFull EndpointTaken FilterIdsSpent IdsSpent NoCap NoFilter NoMemory
                   NoRight NotHolder NotOwner RightsExceed TableFull VersionsSpent
  after `fault`    InputTooLong";

pub(crate) const DRAW_ABOUT: &str = "Draw what sim or run printed";

pub(crate) const DRAW_DETAILS: &str = "\
Draw the trace in FILE, or on standard input, which is what `sim` or `run` printed, as a message sequence diagram: an SVG file.

A column is a core, and a row an event, with its line. An arrow leads from the event that sent a message to the event that
took it; between two cores that is first in, first out. A message that is still under way is a dashed arrow to a row below
the events. A square is a packet, and what is red was refused, vetoed or not done. `v2` says that a core comes to version 2.

With --text it is text for a terminal: a row has its number and its line, and `<- 3` says that the message that was taken was
sent in row 3. At the event's core is `*`, `#` for a packet, `x` for what was refused, vetoed or not done, or the version to
which the core comes.

The lines of tables and of packets that were left are not drawn, nor are events at cores that aren't there. The first line
that is no line of a trace prints `line N: BadLine` alone, with status 1, and a trace of more than 64 MiB
`fault InputTooLong`.";

pub(crate) const DRAW_EXAMPLE: &str = "\
Example: a picture of two-phase commit

    $ mkdemux sim < examples/two-phase.script | mkdemux draw > two-phase.svg

Exit status: 0 done; 1 a refused trace, whose line is on standard output; 2 a fault of the command line; 3 out of memory, a
FILE that can't be opened or a device that failed, with one line on standard error.

docs/messages.md has the meaning and the cure of each word that is printed:
  after `line N:`  BadLine
  after `fault`    InputTooLong";

pub(crate) const TEXT_HELP: &str = "Draw text for a terminal in place of an SVG file";

pub(crate) const FILES_HELP: &str = "Captures that the script names by number";
