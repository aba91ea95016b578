//! What the help of each command tells.

/// What each help ends with.
pub(crate) const STATUSES: &str = "\
Exit status:
  0  all is well
  1  the content is refused, a cycle is not good, or a cable is broken
  2  the words are no command
  3  a file, a socket, the output or memory failed";

/// Of the program.
pub(crate) const ECAT: &str = "\
An EtherCAT master and a ring of simulated slaves. A scene is a text file with
the slaves of a ring and the work that is done with it. A number is decimal
digits, or 0x and hexadecimal digits. The help of a command has more.

Examples:
  ecat show scenes/startup.pcap
  ecat list scenes/startup.pcap
  ecat learn scenes/startup.pcap
  ecat judge scenes/startup.pcap
  ecat replay scenes/startup.pcap scenes/serve/line.scene
  ecat check scenes/check/accepted.scene
  ecat cover scenes/check/accepted.scene
  ecat lint scenes/check/accepted.scene
  ecat where scenes/run/two_slaves_link_1_down.scene
  ecat run scenes/run/example.scene
  ecat sweep scenes/run/example.scene
  ecat sdo scenes/sdo/objects.scene 0x1001 0x1018 1
  ecat udp scenes/run/example.scene --port 4000
  ecat serve scenes/serve/line.scene --packets 100
  ecat master scenes/master/machine.scene --at 127.0.0.1:34980,127.0.0.1:34981
  ecat scan --at 127.0.0.1:34980
  ecat sii scenes/serve/line.scene 0
  ecat vectors
  ecat help sdo";

/// Of `show`.
pub(crate) const SHOW: &str = "\
Prints each packet of a classic pcap file: the datagrams of an EtherCAT frame,
a line each; the fault of a frame and where it is; or another ethertype. A
capture that is faulty or has a faulty frame is refused.

Example:
  ecat show scenes/startup.pcap";

/// Of `list`.
pub(crate) const LIST: &str = "\
Lists the datagrams of the EtherCAT frames of a capture, a line each: the
number of the packet, seconds since the first one, the source address, the
place of the datagram, its command, address, length, working counter and data.
The capture is a pcap or pcapng file of Ethernet, or of Linux's any; frames are
those of type 0x88A4, behind VLAN tags too, and whole ones by UDP at any ports.
With --csv values are separated by commas, below a line of names. With --faults
only packets are listed that are damaged or cut short, and why. With --stats
each frame that was sent is paired with what came back of it, and datagrams that
are alike in command, address and length are counted: how many were sent, came
back and were lost, how far their working counters moved, with the packet where
each counter came first, and how often and how soon. With --index as well those
of each index are counted apart. With --stats and --csv the packets themselves
have rows: when each was captured, in UTC, which way it went, the packet with
which its trip began, the port of the line, and its datagrams. A file is read
twice for it.

Example:
  ecat list scenes/startup.pcap
  ecat list scenes/startup.pcap --stats
  ecat list scenes/startup.pcap --stats --csv";

/// Of `learn`.
pub(crate) const LEARN: &str = "\
Prints a scene of the line that a capture of a master's frames shows: stations,
AL states, sync managers and FMMUs as they were written and counted, or read;
startup objects and objects by mailbox; and the items of the cycle, with how
often they came back and with which counter. So check, cover, lint, sweep and
run say of the user's own line what they say of a scene. What is a guess, what
a scene cannot say and was changed or left out stands in comments. What the
capture does not tell is a hole, as slave ?, which no command reads: then the
status is 1. The line is that of the last cyclic datagram that was answered.
With --at it is the one in front of a packet. With --asked what was sent counts
as taken where the capture has no answers. With --data the items have their
last data, and the slaves their inputs; else zeros: a plant's data are its own.

Example:
  ecat learn scenes/startup.pcap
  ecat learn scenes/startup.pcap > line.scene; ecat check line.scene";

/// Of `judge`.
pub(crate) const JUDGE: &str = "\
Says of a capture which cycles were not good, a run of like ones a line: the
packets, their times, the working counter of each item and the one that the
scene makes expected, and which slaves explain it where they alone were missing.
Lost frames have lines of their own. Then come sums of each item: how many were
sent, good, short, over and lost, how far apart, and how long they were out.
The line is that of SCENE, or else the one that the capture itself shows, as
learn tells it. Datagrams that are no items of the scene are not judged, but
counted. Prints no more than so many lines of runs as --limit says. With --clock
utc date and time of day stand behind the times of packets. The status is 0
where each cycle was good and none was lost.

Example:
  ecat judge scenes/startup.pcap";

/// Of `replay`.
pub(crate) const REPLAY: &str = "\
Sends what the master of a capture sent to the line of a scene, in its order,
and compares each answer with that of the capture: how far working counters
moved, how many slaves were passed, and the data of registers and mailboxes. Of
process data the counters alone are compared. Prints each kind of difference
once, with its packet and how often there was one, and then sums. Differences of
the registers of distributed clocks are counted alone. The line is as serve has
it: its slaves are devices that were just switched on, but for those that are
called plain; --plain and --set-up are those of serve. The status is 0 where all
but clocks was alike.

Example:
  ecat replay scenes/startup.pcap scenes/serve/line.scene";

/// Of `check`.
pub(crate) const CHECK: &str = "\
Checks that the slaves of a scene fit together on one line, and that a cycle
can do its items. Prints accepted, or refused and the first broken rule.

Example:
  ecat check scenes/check/accepted.scene";

/// Of `cover`.
pub(crate) const COVER: &str = "\
Checks as check does, and then that the items carry each bit that a slave is
mapped for and that each slave is shown its outputs. Prints covered, or the
first that is not: uncovered and a bit, as a byte address, a point and the bit
of that byte; or not shown and the sync manager of the outputs.

Example:
  ecat cover scenes/check/accepted.scene";

/// Of `lint`.
pub(crate) const LINT: &str = "\
Names what a scene says that is accepted and yet seldom meant, a line each: the
line of the scene, the slave, and what is odd; as a sync manager that is set
twice, a mailbox that is never active, or a startup object that the slave does
not have. Of a scene without items it says why its line is refused, if it is.
Prints nothing and has the status 0 where there is none, else 1.

Example:
  ecat lint scenes/check/accepted.scene";

/// Of `where`.
pub(crate) const WHERE: &str = "\
Sends one frame from both ports over the line of a scene, under its links down
or its first weather, if it has one. Prints where each copy came back and how
many slaves counted on it; and then whole, or which links are down and which
slaves are cut off, as far as the copies tell. Whole gives the status 0, else
it is 1. The actions and items of the scene are passed over.
With --at or --raw the frame goes to a line somewhere else, at its ends A and B;
of the scene the number of slaves and their stations are taken.
With --through the master that runs on the line is asked, by its --io address,
and tells what its last look at the cable found; no frame goes out for it.

Example:
  ecat where scenes/run/two_slaves_link_1_down.scene";

/// Of `run`.
pub(crate) const RUN: &str = "\
Does the actions of a scene, checks its line and items, and does one cycle.
Prints each frame as it comes back; good, short K or over K, if the scene has
weather, where K is the number of an item, 0 the first; each item with its data
and its working counter, as wkc 2 of 2; and each area that the master writes,
in the memory and as the application sees it.
With --judge the verdict is always printed, and after it what is in the way:
the items that are short, the frames whose copies are lost, where the cable is
broken and which slaves are cut off; or that the redundancy is lost.
With --pcap each copy of a frame is kept in a capture, as it leaves a port and
as it arrives at one; its time is a counter of microseconds.

Example:
  ecat run scenes/run/example.scene";

/// Of `sweep`.
pub(crate) const SWEEP: &str = "\
Checks the line and items of a scene, and then does its cycle many times: with
the whole ring, with each link broken, with each two links broken, and with
each copy of each frame lost. Prints the verdict of each, and the slaves that
are cut off; and at the end how many cycles were good, short and over. The
status is 0 where the whole ring and each single break are good, else 1. The
actions of the scene are done before, its broken links are mended, and its
weathers passed over.

Example:
  ecat sweep scenes/run/example.scene";

/// Of `sdo`.
pub(crate) const SDO: &str = "\
Reads an object of a slave by mailbox, or writes VALUE to it. Prints value and
the number, or written; abort and the slave's code; or fault and what is in the
way. The actions, items and weathers of the scene are passed over.
With --surely it makes trips until it is done, whatever copies are lost, but 64
at most: the first ones in the weathers of the scene, the others under its
links. How many it took is printed on standard error.
With --at or --raw the slave is one of a line somewhere else; the scene says
where its mailboxes are. It is asked as with --surely, or as above with --once.
With --through the master that runs on the line is asked, by its --io address,
and does it beside its cycles; a question that is sent again is not done twice.

Example:
  ecat sdo scenes/sdo/objects.scene 0x1001 0x1018 1
  ecat sdo scenes/sdo/objects.scene 0x1001 0x1018 1 --surely";

/// Of `udp`.
pub(crate) const UDP: &str = "\
Does the items of a scene in one cycle over UDP sockets on 127.0.0.1: the end A
of the line has the port P, the end B the next one. Prints good, short K or
over K, and then what run prints. A scene with actions or weathers is refused.
With --judge what is in the way of a verdict is printed after it, as by run.
With --pcap each copy of a frame is kept in a capture, as by run.

Example:
  ecat udp scenes/run/example.scene --port 4000";

/// Of `serve`.
pub(crate) const SERVE: &str = "\
Puts the simulated line of a scene on the network: its end A on 127.0.0.1 and
the port P, its end B on the next port. Each packet that is a frame in the UDP
form walks from the end where it came in. What comes back leaves from the end
where it arrives, to whoever spoke there last. Prints where it serves, and at
its end the counts packets, frames and dropped, and the areas of the slaves.
It ends after N packets, or without --packets at the end of standard input,
which --forever leaves alone, as --packets does: so it stays in the background.
A scene with actions or weathers is refused; its items are passed over.
With --bind both ends lie at ADDRESS, 0.0.0.0 for each address of this machine:
whoever reaches the ports may write outputs then.
Its slaves are devices, which a master of somebody else can identify: they have
an EEPROM, and tell what they are and which of their links are up. Slaves that
the scene calls plain have none of it, and with --plain all are that the scene
does not call device. A device begins as one that was just switched on: in Init,
without a station, and with no sync manager and no FMMU; with --set-up it begins
as the scene sets it up. Its EEPROM is made of the scene, or with --sii is what
a file of FOLDER has, 0.bin of the first slave, 1.bin of the next one, as IgH's
ethercat sii_read writes them.
With --log standard error has a line for each packet: its number, end and size,
and of a frame each datagram, with the counter as it came and as it left, and
where it left; or why it was dropped, and ethernet or padded where it looks so.
With --raw the ends lie at network interfaces, through packet sockets that
tools/raw opens: end A has the first and end B the second one. A cable that is
pulled there is the link at that end, and is told on standard error.
With --pcap each copy is kept in a capture, as it comes in at an end and as it
leaves from one, at the time of the clock.
With --control each line of standard input is a command, which is done between
two packets and answered by ok, what it asks for and ok, or refused and why:
  link K up|down            mends or breaks a link, 0 before the first slave
  mem SLAVE ADDRESS BYTES   loads process memory, as inputs
  state SLAVE 1|2|4|8       puts a slave into a state
  error SLAVE CODE          has a slave show an error; in Op it goes to Safe-Op
  power SLAVE on|off        switches its power; behind it it begins in Init
  lose A|B N                loses the next N copies that arrive at an end
  late A|B MILLISECONDS N   has the next N copies leave an end so much later
  double A|B N              has them leave twice
  damage A|B N              has them leave with one bit turned, as no frame
  unplug A|B                nobody has spoken at that end any more
  areas, line, counts       print the areas, the slaves, the packets
  quit                      ends it, as the end of the input does
SLAVE is a place, 0 the first, or a station in hexadecimal digits as 0x1001.

Example:
  ecat serve scenes/serve/line.scene --packets 100
  ecat serve scenes/serve/line.scene --forever --log";

/// Of `master`.
pub(crate) const MASTER: &str = "\
A master of a line somewhere else, whose ends A and B lie at AT; with one
address it has one port. The scene is what the slaves are to be told, and its
items are what each cycle asks. It counts the slaves, gives them their stations,
writes their sync managers and FMMUs and, in Pre-Op, their startup objects, and
brings them to Op, a line for each step. A slave for which the scene has object
0x1018 has to be that one. Then it cycles, N times or to the end of standard
input, and is silent while all is good. It tells of a cycle that is not good,
with the item that is short and where the cable is broken; of redundancy that is
lost though cycles are good; of a ring that is whole again; and of slaves that
are not in Op, which each cycle asks by one datagram more. At the end the slaves
are left in Init, or as --leave says; it prints how many cycles were good, short,
over and without a verdict, in how many good ones not all slaves were in Op, and
the items with their last answers. The status is 0 where the last cycle was good
with all slaves in Op, and the slaves were left as they were to be.
With --outputs count the outputs are a number that grows by one each cycle.
With --outputs and a file, of 1 MiB at most, each of its lines has the outputs
of one cycle, and behind the last line it begins again at the first: the bytes
of the items that write, item after item, two hexadecimal digits each.
With --io a program at HOST:PORT, by UDP, gives the outputs and gets the inputs
of each cycle, one packet each way: what it ordered last before a cycle goes out
in it, and it is told each cycle's number, end and inputs. The address has to be
one of this machine alone, unless --io-open is said. With --io-stale N outputs of
which no packet came for N cycles are stale: the program is told, and with
--io-rest zeros they become 0. With --io-rest safe-op they do too, and the slaves
are asked for Safe-Op, one after the other; once it speaks again, for Op.
With --control each line of standard input is a command, 32 at the most between
two cycles. It is answered behind the next one, by what it asks for and ok, or
refused and why, and has changed nothing then:
  set ITEM OFFSET BYTES        outputs from the next cycle on; behind ; more such
                               places, all of which are changed, or none
  set NAME VALUE               the bits of a signal, as one of the places
  get ITEM [OFFSET LENGTH]     what an item sent, and took in the last good cycle
  get NAME, signals            values of a signal, and of all of them
  slaves, cable                what is known of each slave, and of the cable
  counts, times                the sums that are told at the end, as of now
  sdo STATION INDEX SUB [VALUE] reads or writes an object beside the cycles
  state STATION init|pre-op|safe-op|op  asks a slave for a state, as well
  acknowledge STATION          acknowledges its error
  leave init|pre-op|safe-op|op ends it, and leaves the slaves there
  quit                         ends it, as the end of the input does
With --stop it ends at the first cycle that is not good. With --recover slaves
that show an error, or came back in Init, are brought up again, by one frame
behind each cycle. A state that one is asked for is read behind so many cycles
as --tries says; one that is not there then is told, and tried again later.
With --log FILE each cycle has a line there; with --log-images beside it that
line has what the cycle sent in its items, and what the items hold behind it.
No cycle waits for a reader: lines that nobody takes, of the log as of all that
is printed, are left out, counted and told at the end. A log that cannot be
written is told once, the cycles go on, and the status is 3; with --log-or-stop
it ends there.
With --clock utc each line that is printed or logged begins with the time, as
2026-12-01T04:16:03.123Z, but for answers to commands.
At a terminal standard error has a page, drawn anew four times a second: how many
cycles there were, the cable, a letter for each slave, the last lines, and how
long cycles take. With --control it has a line each second in its place. What
--progress says, screen, lines or none, is so without a terminal too.
With --until-end and --cycles it ends at the end of standard input too. With
--busy it never sleeps while it waits for a cycle's time or for copies: it
begins sooner, and takes a processor of its own.
With --pcap each copy of a frame is kept in a capture, as it leaves a port and
as it arrives at one, at the time of the clock.
With --raw the line is reached by network interfaces, through packet sockets
that tools/raw opens; port A has the first and port B the second one.

Example:
  ecat master scenes/master/machine.scene --at 127.0.0.1:34980,127.0.0.1:34981
  tools/raw eth0 eth1 -- ./ecat master machine.scene --raw 10,11";

/// Of `scan`.
pub(crate) const SCAN: &str = "\
Asks the slaves of a line somewhere else what they are, and prints a line for
each: its place, station, AL state and error, its active sync managers and
FMMUs, and its identity where it has a mailbox. They are counted three times;
counts that differ are told, and so is it where nobody answers.
With --scene the line is written as a scene besides: stations, AL states, sync
managers and FMMUs as they were read, and the identity as objects; so that
check, cover and lint say of it what they say of a scene.
With --through the master that runs on the line is asked, by its --io address,
and tells of each slave its place, station, AL state, error and links, and of
the cable, as far as it knows them; no frame goes out for it.

Example:
  ecat scan --at 127.0.0.1:34980,127.0.0.1:34981";

/// Of `sii`.
pub(crate) const SII: &str = "\
Prints what an EEPROM says, as slaves have one and masters read it at start: who
made the slave, its name, mailboxes, FMMUs, sync managers and process data. FILE
has its bytes, as `ethercat sii_read` writes them; with PLACE it is a scene, and
the EEPROM is the one that `serve` makes for the slave at that place, 0 for the
first one. With --write the bytes are written to a file besides, which
`serve --sii` reads where it is called 0.bin, 1.bin, .. in its folder.

Examples:
  ecat sii scenes/serve/line.scene 0
  ecat sii scenes/serve/line.scene 0 --write 0.bin";

/// Of `vectors`.
pub(crate) const VECTORS: &str = "\
Runs the worked rows, frames and cycles whose answers are known, and prints for
each its number and ok or wrong.

Example:
  ecat vectors";
