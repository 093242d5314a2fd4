//! The help texts.

pub const HELP: &str = "usage: macsecd [SUBCOMMAND VALUES..]

  open                         opens one protected frame; also without a word
  format DISK SCI TX RX        makes a disk file for an endpoint
  apply DISK FILE              applies the commands of a TOML file
  show DISK                    prints the configuration and the packet numbers
  protect DISK INPUT OUTPUT    protects the frames of a capture
  validate DISK INPUT OUTPUT   validates the frames of a capture
  relay DISK OWN1 PEER1 OWN2 PEER2 --turns n
                               relays frames between two wires of UDP
  keep DISK SOCKET             keeps the disk of a relay in a process of its own
  ask PATH show|counters|keys|traffic|about|stop|apply FILE
                               asks a running relay over its control socket
  key                          prints a fresh key
  inspect INPUT                prints what the SecTAG of each frame says
  check FILE [DISK]            checks the commands of a TOML file
  plan FILE left|right first|receive|send|remove
                               prints the commands of a stage of a link's keys
  examine DISK                 prints what the journal of a disk file has
  about                        prints which program this is

macsecd SUBCOMMAND --help says more of each; --version prints the version.
A fault is one line on standard error.
status: 0 done, 2 usage, 3 refused, 4 disk, 5 input, wire, output or memory
";

pub const OPEN: &str = "usage: macsecd [open]

Opens one protected frame. Standard input has four lines:
  the key                       32 hex digits, or 64
  the SCI                       16 hex digits
  the confidentiality offset    0, 30 or 50
  the protected frame           hex, from the destination address to the ICV
It prints one line:
  valid an=AN pn=PN plain=HEX   the frame is genuine, HEX is its plain frame
  runt, oversize, no tag, bad tag, for kay, other sci or not valid
                                the frame is refused

example: macsecd open < examples/annex-c.txt
status: 0 valid, 2 usage, 3 frame refused, 5 input, output or memory
";

pub const FORMAT: &str = "usage: macsecd format DISK SCI TX RX [--block n] [--over]

Makes a disk file for an endpoint, with the default configuration, and prints
'formatted'.
  DISK   the file, of 526,336 octets: it is made, or replaces one that is blank
         and a multiple of 512 octets long
  SCI    the endpoint's own SCI: 16 hex digits, MAC address and port number
  TX     packet numbers that are reserved at a time to transmit: 1 to 65536
  RX     and to receive: 1 to 65536
  --block n   how many octets of the device a power loss may spoil at a time:
              512, or 4096, for which the file has 4,214,784 octets
  --over      takes a file that holds something else, which is lost then
A file that has an endpoint is refused: 'already formatted'. So is one that holds
something else, without --over: 'disk file'.

example: macsecd format left.disk 0200000000010001 1024 16
status: 0 done, 2 usage, 4 disk, 5 output or memory
";

pub const APPLY: &str = "usage: macsecd apply DISK FILE

Applies the commands of a TOML file, one after another, and prints a line for
each once it is kept: '1 ok', '2 refused KeySpent' and so on.
  DISK   a disk file that was formatted
  FILE   at most 1,048,576 octets: tables [[command]], each with 'do' and
           set-validate   mode = \"strict\" or \"check\"
           set-replay     on = true or false, window = 0 to 4294967295
           set-sci-mode   mode = \"explicit\", \"end-station\" or \"implicit\"
           tx-install     an, key, start, confidential = true or false, offset
           tx-use         an
           tx-remove      an
           rx-add         sci
           rx-drop        sci
           rx-install     sci, an, key, start, offset
           rx-remove      sci, an
         an = 0 to 3, key = \"32 or 64 hex digits\", sci = \"16 hex digits\",
         start = 1 to 4294967295, offset = 0, 30 or 50
         Before the tables it may name the end that it is for, as
           sci = \"0200000000010001\"
A refused command changes nothing, and the next one is applied. Where FILE names
an end that is not the one of DISK, none is applied: 'commands', status 5.

example: macsecd apply left.disk examples/left.toml
status: 0 done, 2 usage, 3 a command refused, 4 disk, 5 input, output or memory
";

pub const SHOW: &str = "usage: macsecd show DISK

Prints the configuration, and the next packet number of each association.
  DISK   a disk file that was formatted

example: macsecd show left.disk
status: 0 done, 2 usage, 4 disk, 5 output or memory
";

pub const PROTECT: &str = "usage: macsecd protect DISK INPUT OUTPUT [--all]

Protects the frames of a capture under the association in use, writes the
capture of the frames that go out, and prints 'protected 3 dropped 0'.
  DISK     a disk file that was formatted
  INPUT    a classic capture (pcap) of Ethernet frames, whole and without FCS
  OUTPUT   the capture that is made; a file of that name is written over
  --all    ends with status 3 where a frame was dropped
DISK, INPUT and OUTPUT are three files, and no disk file is taken for OUTPUT.

example: macsecd protect left.disk examples/plain.pcap protected.pcap
status: 0 done, 2 usage, 3 a frame dropped, 4 disk, 5 capture, output or memory
";

pub const VALIDATE: &str = "usage: macsecd validate DISK INPUT OUTPUT [--all] [--each]

Validates the frames of a capture, writes the capture of the frames that are
delivered, and prints 'delivered 3 discarded 1'.
  DISK     a disk file that was formatted
  INPUT    a classic capture (pcap) of Ethernet frames, whole and without FCS
  OUTPUT   the capture that is made; a file of that name is written over
  --all    ends with status 3 where a frame was discarded
  --each   before that prints a line for each frame, as it is validated: '1 ok',
           '2 late' and so on, in the words of the counters
DISK, INPUT and OUTPUT are three files, and no disk file is taken for OUTPUT.

example: macsecd validate right.disk protected.pcap plain.pcap
status: 0 done, 2 usage, 3 a frame discarded, 4 disk, 5 capture, output or memory
";

pub const RELAY: &str = "usage: macsecd relay DISK OWN1 PEER1 OWN2 PEER2 --turns n
       macsecd relay DISK OWN1 PEER1 OWN2 PEER2 --wait MS [--turns n]
  and [--control PATH] [--metrics FILE] [--buffer OCTETS] [--keeper SOCKET]

Relays frames between two wires of UDP: a datagram is one Ethernet frame without
FCS. Frames of the first wire, the controlled side, are protected and go to the
second; frames of the second one that are delivered go to the first. At the end
it prints 'sent 6 delivered 0 dropped 0 faults 0'.
  DISK           a disk file that was formatted
  OWN1, OWN2     where each wire is bound: address and port, as 127.0.0.1:4000
                 or [::1]:4000; port 0 is any
  PEER1, PEER2   where its datagrams go to; those from elsewhere are dropped
  --turns n      how often each wire is asked for a frame, at most:
                 0 to 18446744073709551615
  --wait MS      after a turn that brought nothing it sleeps until a datagram is
                 there on either wire, at most so many milliseconds: 1 to 60000.
                 Without --turns it goes on until a signal ends it
  --control PATH    a local socket for its owner alone, at which it is asked while
                    it runs: see 'macsecd ask --help'
  --metrics FILE    a file that the counters are written to, once a second, as
                    a text for Prometheus; another file of this name, or of
                    this name and .new, is left alone, and refused
  --buffer OCTETS   how much the system is asked to keep for each wire of what
                    waits: 1 to 1073741823
  --keeper SOCKET   the socket of a keeper that has the disk file: frames pass
                    while the device syncs; see 'macsecd keep --help'
Without --wait no turn waits for a frame: one processor is busy until the last.

example: macsecd relay left.disk 127.0.0.1:4001 127.0.0.1:4000 \\
           127.0.0.1:5001 127.0.0.1:5002 --turns 10000000
status: 0 done, 2 usage, 4 disk, 5 wire, control, output or memory
";

pub const KEEP: &str = "usage: macsecd keep DISK SOCKET

Keeps a disk file for a relay: makes each read, write and sync of the file that
the relay asks for over a local socket. So the relay, which runs with --keeper
SOCKET, passes frames while the device is busy.
  DISK     a disk file that was formatted; no other program can use it meanwhile
  SOCKET   the name of the socket, which is made. Only the owner of the keeper
           can connect to it
One relay is served. Once it has connected the name is removed, and nobody else
can connect. The keeper ends when its relay has ended, and prints nothing; the
next relay needs a new keeper. A signal ends it at any moment. If the device
fails, the relay reports it and ends, and so does the keeper.

example: macsecd keep left.disk /run/macsecd/left/keeper
status: 0 the relay has ended, 2 usage, 4 disk, 5 socket, request or memory
";

pub const ASK: &str = "usage: macsecd ask PATH show [--json]
       macsecd ask PATH counters [--json]
       macsecd ask PATH keys [--json]
       macsecd ask PATH traffic [--json]
       macsecd ask PATH about [--json]
       macsecd ask PATH apply FILE
       macsecd ask PATH stop

Asks a running relay over its control socket, and prints its answer.
  PATH         the socket: what the relay was given as --control
  show         the configuration and the packet numbers, as they are now
  counters     each counter of the endpoint and of both wires, a line each
  keys         the length and an identifier of each installed key, by which two
               ends compare them: 'tx 0 key 128 id 3f0a91c2'
  traffic      frames under each association number and their octets, encrypted
               or not; and when the last frame came that verified, in seconds
               since 1970
  about        the program that runs it, and since when, in seconds since 1970
  apply FILE   applies the commands of a TOML file, as 'macsecd apply' does: a
               line for each once it is kept, '1 ok', '2 refused KeySpent';
               none of a file that names another end: 'commands', status 5
  stop         ends the relay, which prints its last line
  --json       prints an object of JSON for each line of the answer, on a line
               each: '{\"line\":\"blocks\",\"tx\":1024,\"rx\":16}'

example: macsecd ask /run/macsecd/left/control apply new_keys.toml
status: 0 done, 2 usage, 3 a command refused, 4 the relay ended, 5 nobody there,
        input, output or memory
";

pub const KEY: &str = "usage: macsecd key [--long]

Prints a fresh key in hex digits, as the system's random source gives it: for
GCM-AES-128, 32 digits.
  --long   for GCM-AES-256: 64 digits

example: macsecd key --long
status: 0 done, 2 usage, 5 random source, output or memory
";

pub const INSPECT: &str = "usage: macsecd inspect INPUT

Prints a line for each frame of a capture: its number, what its SecTAG says, and
how many octets it has. No key is needed, and nothing is verified.
  INPUT   a classic capture (pcap) of Ethernet frames, whole and without FCS
A line is one of
  1 an=0 pn=1025 sl=0 e=1 c=1 sci=0200000000010001 octets=92
  2 an=0 pn=1026 sl=0 e=1 c=1 es octets=84
                the channel is that of the source address and port 00-01
  3 an=0 pn=1027 sl=46 e=0 c=0 octets=82
                the channel is not named
  4 runt, oversize, no tag, bad tag or for kay
                what is wrong with it, as 'macsecd open' says it

example: macsecd inspect protected.pcap
status: 0 done, 2 usage, 5 capture, output or memory
";

pub const CHECK: &str = "usage: macsecd check FILE
       macsecd check FILE DISK

Checks whether the commands of a TOML file can be read, as 'macsecd apply' reads
them, and prints how many there are: '4 commands'. With DISK it prints a line for
each instead, with what 'macsecd apply' would answer there, as
  1 would be ok
  2 would be refused KeySpent
A command that can be read may still be refused: with DISK alone that is said.
A file that names an end that is not the one of DISK is refused, with status 5.
Where others can read FILE, its mode comes last: 'mode 644'.
Nothing is changed. DISK is only read, and no relay may run on it meanwhile.
  FILE   as of apply: see 'macsecd apply --help'
  DISK   a disk file that was formatted
A fault of FILE is one line: the command, its key, and what is wrong with it, as
  command 3 key: not 32 or 64 hex digits

example: macsecd check examples/left.toml left.disk
status: 0 done, 2 usage, 3 a command would be refused, 4 disk, 5 a fault of the
        file, output or memory
";

pub const PLAN: &str = "usage: macsecd plan FILE left|right first|receive|send|remove

Prints the commands of an end of a link for a stage of its keys, as a TOML file
for 'macsecd apply' that names the SCI of the end. Nothing is changed.
  FILE      a TOML file that says the link, and has no other key than these:
              [left], [right]   each with sci = \"16 hex digits\", that of the end
              [[key]]           for each pair of keys, the newest last:
                                an = 0 to 3, and left and right, the keys of the
                                frames from each end, \"32 or 64 hex digits\"
  first     of a new endpoint: it sends and receives under the newest pair
  receive   it receives under the newest pair too
  send      it sends under it
  remove    the pair before it goes
A stage comes at both ends before the next one. A fault of FILE is one line: the
table, its key, and what is wrong with it, or that there is no earlier pair:
  key 2 an: not 0 to 3
  one key     there is one pair, and the stage is not first
A link is refused by one of these:
  same sci    both ends have one SCI
  same key    a key is there twice
  an in use   a pair has the association number of the one before it

example: macsecd plan link.toml left first > left.toml
status: 0 done, 2 usage, 3 the link is refused, 5 a fault of the file, output
        or memory
";

pub const EXAMINE: &str = "usage: macsecd examine DISK [--json]

Prints the state of the journal in a disk file. The file is only read; meanwhile
others may read it, but no relay may run on it, and no program may write to it.
  DISK     a disk file that was formatted
  --json   prints an object of JSON for each of the lines, on a line each:
           '{\"line\":\"area\",\"area\":0}'; a fault is said as without it
It prints, a line each,
  format 2                           1 was written by programs before 0.1.0
  block 512                          octets of the device for a sector; or 4096
  area 0                             the area that is in use, 0 or 1
  generation 3                       of the area: 1 at first
  slots used 12 of 256               records of the area
  records tx-install 2               of each kind that is there: the commands as
                                     in command files; settings, tx-sa, channel,
                                     rx-sa, spent as the area began; tx-ceiling,
                                     rx-ceiling for packet numbers
  ceiling tx 0 1025                  of each transmit association, the first
                                     packet number that is not reserved
  ceiling rx 0200000000020001 0 17   of each receive association, by channel
  spent tx 1 of 512                  keys that were ever installed
  spent rx 1 of 512
  whole                              records can be read, and in this order
or of a bad journal the first sector of the disk that is at fault, from 0, as
  fault in sector 4

example: macsecd examine left.disk
status: 0 done, 2 usage, 3 a sector is at fault, 4 disk, 5 output or memory
";

pub const ABOUT: &str = "usage: macsecd about

Prints which program this is, a line each:
  macsecd 0.1.0
  commit unknown              of the sources, or unknown
  toolchain unknown           that built it, with its logic, or unknown
  built for x86-64-v2         the processors that it is for, or x86-64-v3
  journal writes format 2
  journal reads formats 1, 2

example: macsecd about
status: 0 done, 2 usage, 5 output or memory
";

pub const VERSION: &str = "macsecd 0.1.0\n";
