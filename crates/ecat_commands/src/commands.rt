//! The command line, in clap's words.
ghost use Rattle.std.specs.Prelude.{◌≡◌, List, IfOk, codes};
ghost use Rattle.clap.specs.Words.{App, Rule, new_app, new_rule, with_subcommand};
ghost use Rattle.ecat_commands.specs.Commands.{AreWords, Builds, IsWord, flag_rule, line};
ghost use Rattle.ecat_commands.specs.Commands.{capture_lines, clock_rule, course_words, end_words, io_words};
ghost use Rattle.ecat_commands.specs.Commands.{master_words};
ghost use Rattle.ecat_commands.specs.Commands.{judge_line, pace_words, replay_line, scene_lines};
ghost use Rattle.ecat_commands.specs.Commands.{socket_lines};
ghost use Rattle.ecat_commands.specs.Commands.{with_commands};
ghost use Rattle.ecat_commands.specs.Commands.{needed_rule, option_rule, at_rule, force_rule, json_rule};
ghost use Rattle.ecat_commands.specs.Commands.{judge_rule, late_rule, limit_rule, pcap_rule, port_rule};
ghost use Rattle.ecat_commands.specs.Commands.{raw_rule, check_line, cover_line, learn_line, lint_line};
ghost use Rattle.ecat_commands.specs.Commands.{list_line, master_line, run_line, scan_line, sdo_line};
ghost use Rattle.ecat_commands.specs.Commands.{sii_line};
ghost use Rattle.ecat_commands.specs.Commands.{device_words, serve_line, serve_words, show_line, sweep_line};
ghost use Rattle.ecat_commands.specs.Commands.{through_rule, udp_line};
ghost use Rattle.ecat_commands.specs.Commands.{ecat_setup, vectors_line, where_line, with_rules};

use crate::help;
use clap::{Arg, ArgAction, Command};
use std::alloc::{AllocError, Global};

// A word that may be given.
fn optional<'a>(alloc: Global, id: &'a str, help: &'a str) -> Arg<'a>
    ensures { IsWord (new_rule id.entry.now) result }
{
    Arg::new(alloc, id).help(help)
}

// A word that has to be given.
fn needed<'a>(alloc: Global, id: &'a str, help: &'a str) -> Arg<'a>
    ensures { IsWord (needed_rule id.entry.now) result }
{
    optional(alloc, id, help).required(true)
}

// A word that may be given behind its name, which stands after two hyphens.
fn option<'a>(alloc: Global, id: &'a str, name: &'a str, help: &'a str) -> Arg<'a>
    ensures { IsWord (option_rule id.entry.now name.entry.now) result }
{
    optional(alloc, id, help).long(name)
}

// A name after two hyphens, with no word behind it.
fn flag<'a>(alloc: Global, name: &'a str, help: &'a str) -> Arg<'a>
    ensures { IsWord (flag_rule name.entry.now) result }
{
    option(alloc, name, name, help).action(ArgAction::SetTrue)
}

// The scene of a command.
fn scene<'a>(alloc: Global) -> Arg<'a>
    ensures { IsWord (needed_rule (codes "SCENE")) result }
{
    let help = "A file with the slaves of a ring and its work";
    needed(alloc, "SCENE", help)
}

// The port of the line's end A.
fn port<'a>(alloc: Global) -> Arg<'a>
    ensures { IsWord port_rule result }
{
    let help = "The port of the line's end A, 1024 to 65534; 34980 if not given";
    option(alloc, "P", "port", help)
}

// Where the two ends of a line lie.
fn at<'a>(alloc: Global) -> Arg<'a>
    ensures { IsWord at_rule result }
{
    let help = "Where the line lies: HOST:PORT of its end A, and of its end B behind a comma";
    option(alloc, "AT", "at", help)
}

// The packet sockets of network interfaces, which the program was started with.
fn raw<'a>(alloc: Global) -> Arg<'a>
    ensures { IsWord raw_rule result }
{
    let help =
        "The descriptors of packet sockets, of end A and behind a comma of end B; tools/raw opens them";
    option(alloc, "RAW", "raw", help)
}

// The door of a running master through which a line is asked.
fn through<'a>(alloc: Global) -> Arg<'a>
    ensures { IsWord through_rule result }
{
    let help = "The --io address, HOST:PORT, of the master that runs on the line and is asked";
    option(alloc, "THROUGH", "through", help)
}

// How long a copy is waited for.
fn limit<'a>(alloc: Global, help: &'a str) -> Arg<'a>
    ensures { IsWord limit_rule result }
{
    option(alloc, "LIMIT", "limit", help)
}

// How late a copy may come: taken, and without effect.
fn late<'a>(alloc: Global) -> Arg<'a>
    ensures { IsWord late_rule result }
{
    let help = "Has no effect: no number is used twice, so nothing is waited for";
    option(alloc, "LATE", "late", help)
}

// Where each copy is kept.
fn pcap<'a>(alloc: Global) -> Arg<'a>
    ensures { IsWord pcap_rule result }
{
    let help =
        "A capture that gets each copy, as it leaves and as it arrives; it must not be there yet";
    option(alloc, "PCAP", "pcap", help)
}

// Whether a capture is overwritten.
fn force<'a>(alloc: Global) -> Arg<'a>
    ensures { IsWord force_rule result }
{
    flag(alloc, "force", "Overwrites the file where it is there")
}

// Whether lines have the time of the clock.
fn clock<'a>(alloc: Global, help: &'a str) -> Arg<'a>
    ensures { IsWord clock_rule result }
{
    option(alloc, "CLOCK", "clock", help)
}

// Whether the cycle is judged.
fn judge<'a>(alloc: Global) -> Arg<'a>
    ensures { IsWord judge_rule result }
{
    let help =
        "Judges the cycle: which items are short, whose copies are lost, where the cable is broken";
    flag(alloc, "judge", help)
}

// Whether objects of JSON are printed.
fn json<'a>(alloc: Global) -> Arg<'a>
    ensures { IsWord json_rule result }
{
    flag(
        alloc,
        "json",
        "Prints an object of JSON a line, in place of texts",
    )
}

// A command with no words: its line in the list of commands, and what its help tells.
fn plain<'a>(alloc: Global, name: &'a str, about: &'a str, text: &'a str) -> Command<'a>
    ensures { Builds (new_app name.entry.now) result }
{
    Command::new(alloc, name)
        .about(about)
        .long_about(text)
        .after_help(help::STATUSES)
}

// A command with these words, in their order.
fn command<'a>(
    alloc: Global,
    name: &'a str,
    about: &'a str,
    text: &'a str,
    words: Vec<Arg<'a>>,
) -> Result<Command<'a>, AllocError>
    ensures { (rules : List Rule) → AreWords rules words.entry.items
        → IfOk result (Builds (with_rules (new_app name.entry.now) rules)) }
{
    plain(alloc, name, about, text).args(words)
}

// A command with these words more, in their order.
fn more<'a>(command: Command<'a>, words: Vec<Arg<'a>>) -> Result<Command<'a>, AllocError>
    ensures { (line : App) (rules : List Rule) → Builds line command.entry → AreWords rules words.entry.items
        → IfOk result (Builds (with_rules line rules)) }
{
    command.args(words)
}

// `show FILE`
fn show<'a>(alloc: Global) -> Result<Command<'a>, AllocError>
    ensures { IfOk result (Builds show_line) }
{
    let about = "Prints the frames of a capture";
    let words = vec![in alloc; needed(alloc, "FILE", "The capture, a pcap file")]?;
    command(alloc, "show", about, help::SHOW, words)
}

// `list FILE [--csv] [--faults] [--stats] [--index] [--json]`
fn list<'a>(alloc: Global) -> Result<Command<'a>, AllocError>
    ensures { IfOk result (Builds list_line) }
{
    let about = "Lists the datagrams of a capture";
    let file = "The capture, a pcap or pcapng file; - for standard input";
    let words = vec![in alloc;
        needed(alloc, "FILE", file),
        flag(alloc, "csv", "Separates by commas, below a line of names"),
        flag(
            alloc,
            "faults",
            "Lists packets alone that are damaged or cut short",
        ),
        flag(
            alloc,
            "stats",
            "Counts what was sent, came back and was lost of datagrams that are alike",
        ),
        flag(
            alloc,
            "index",
            "With --stats, counts the datagrams of each index apart",
        ),
        json(alloc),
    ]?;
    command(alloc, "list", about, help::LIST, words)
}

// `learn FILE [--at PACKET] [--asked] [--data]`
fn learn<'a>(alloc: Global) -> Result<Command<'a>, AllocError>
    ensures { IfOk result (Builds learn_line) }
{
    let about = "Writes the line that a capture shows as a scene";
    let file = "The capture, a pcap or pcapng file; - for standard input";
    let packet = "Tells the line as it was in front of this packet, 1 the first";
    let asked = "Takes what was sent for taken where the capture has no answers";
    let words = vec![in alloc;
        needed(alloc, "FILE", file),
        option(alloc, "PACKET", "at", packet),
        flag(alloc, "asked", asked),
        flag(
            alloc,
            "data",
            "Writes the last data of the items and inputs; zeros if not given",
        ),
    ]?;
    command(alloc, "learn", about, help::LEARN, words)
}

// `judge FILE [SCENE] [--csv] [--limit LINES] [--clock CLOCK] [--json]`
fn judge_capture<'a>(alloc: Global) -> Result<Command<'a>, AllocError>
    ensures { IfOk result (Builds judge_line) }
{
    let about = "Says which cycles of a capture were not good, and which slaves were missing";
    let file = "The capture, a pcap or pcapng file; - for standard input, with a SCENE";
    let scene = "A file with the slaves and their work; learned of the capture if not given";
    let lines = "How many runs of cycles are told; 1000 if not given";
    let stamps =
        "What stands beside each time: utc, the date and the time of day; none; none if not given";
    let words = vec![in alloc;
        needed(alloc, "FILE", file),
        optional(alloc, "SCENE", scene),
        flag(alloc, "csv", "Separates by commas, below a line of names"),
        option(alloc, "LINES", "limit", lines),
        clock(alloc, stamps),
        json(alloc),
    ]?;
    command(alloc, "judge", about, help::JUDGE, words)
}

// `replay FILE SCENE [--plain] [--set-up]`
fn replay<'a>(alloc: Global) -> Result<Command<'a>, AllocError>
    ensures { IfOk result (Builds replay_line) }
{
    let about = "Says how like the line of a scene is to the one that a capture shows";
    let file = "The capture, a pcap or pcapng file; - for standard input";
    let scene = "A file with the slaves that what the master sent is sent to";
    let plain = "Leaves slaves that the scene does not call device without what devices tell";
    let set_up = "Has devices begin as the scene sets them up, and not as just switched on";
    let words = vec![in alloc;
        needed(alloc, "FILE", file),
        needed(alloc, "SCENE", scene),
        flag(alloc, "plain", plain),
        flag(alloc, "set-up", set_up),
    ]?;
    command(alloc, "replay", about, help::REPLAY, words)
}

// `check SCENE [--json]`
fn check<'a>(alloc: Global) -> Result<Command<'a>, AllocError>
    ensures { IfOk result (Builds check_line) }
{
    let about = "Says whether the slaves of a scene fit together on one line";
    let words = vec![in alloc; scene(alloc), json(alloc)]?;
    command(alloc, "check", about, help::CHECK, words)
}

// `cover SCENE [--json]`
fn cover<'a>(alloc: Global) -> Result<Command<'a>, AllocError>
    ensures { IfOk result (Builds cover_line) }
{
    let about = "Says whether the items of a scene carry all that its slaves are mapped for";
    let words = vec![in alloc; scene(alloc), json(alloc)]?;
    command(alloc, "cover", about, help::COVER, words)
}

// `lint SCENE [--json]`
fn lint<'a>(alloc: Global) -> Result<Command<'a>, AllocError>
    ensures { IfOk result (Builds lint_line) }
{
    let about = "Names what a scene says that is accepted and yet seldom meant";
    let words = vec![in alloc; scene(alloc), json(alloc)]?;
    command(alloc, "lint", about, help::LINT, words)
}

// `where SCENE [--at AT] [--raw RAW] [--through THROUGH] [--json]`
fn where_broken<'a>(alloc: Global) -> Result<Command<'a>, AllocError>
    ensures { IfOk result (Builds where_line) }
{
    let about = "Says where the cable of a scene is broken, and who is missing";
    let words = vec![in alloc;
        scene(alloc),
        at(alloc),
        raw(alloc),
        through(alloc),
        json(alloc),
    ]?;
    command(alloc, "where", about, help::WHERE, words)
}

// `run SCENE [--judge] [--pcap PCAP] [--force]`
fn run<'a>(alloc: Global) -> Result<Command<'a>, AllocError>
    ensures { IfOk result (Builds run_line) }
{
    let about = "Does the actions of a scene, and then its work";
    let words = vec![in alloc; scene(alloc), judge(alloc), pcap(alloc), force(alloc)]?;
    command(alloc, "run", about, help::RUN, words)
}

// `sweep SCENE`
fn sweep<'a>(alloc: Global) -> Result<Command<'a>, AllocError>
    ensures { IfOk result (Builds sweep_line) }
{
    let about = "Does the work of a scene with each cable broken, each two, and each copy lost";
    let words = vec![in alloc; scene(alloc)]?;
    command(alloc, "sweep", about, help::SWEEP, words)
}

// `sdo SCENE STATION INDEX SUB [VALUE] [--surely] [--once] [--at AT] [--raw RAW] [--through THROUGH]`
fn sdo<'a>(alloc: Global) -> Result<Command<'a>, AllocError>
    ensures { IfOk result (Builds sdo_line) }
{
    let about = "Reads an object of a slave, or writes VALUE to it";
    let value = "What to write: 0x and 2, 4 or 8 hexadecimal digits";
    let surely = "Makes trips until it is done, whatever copies are lost: 64 at most";
    let once = "Asks a line somewhere else once; the first lost copy is a fault then";
    let words = vec![in alloc;
        scene(alloc),
        needed(alloc, "STATION", "The station address of the slave"),
        needed(alloc, "INDEX", "The index of the object"),
        needed(alloc, "SUB", "The subindex of the object"),
        optional(alloc, "VALUE", value),
        flag(alloc, "surely", surely),
        flag(alloc, "once", once),
        at(alloc),
        raw(alloc),
        through(alloc),
    ]?;
    command(alloc, "sdo", about, help::SDO, words)
}

// `udp SCENE [--port P] [--judge] [--pcap PCAP] [--force]`
fn udp<'a>(alloc: Global) -> Result<Command<'a>, AllocError>
    ensures { IfOk result (Builds udp_line) }
{
    let about = "Does the work of a scene through UDP sockets";
    let words = vec![in alloc;
        scene(alloc),
        port(alloc),
        judge(alloc),
        pcap(alloc),
        force(alloc),
    ]?;
    command(alloc, "udp", about, help::UDP, words)
}

// `serve SCENE [--port P] [--packets N] [--bind ADDRESS] [--forever] [--control] [--log] [--plain]
// [--set-up] [--sii FOLDER] [--raw RAW] [--pcap PCAP] [--force] [--json]`
fn serve<'a>(alloc: Global) -> Result<Command<'a>, AllocError>
    ensures { IfOk result (Builds serve_line) }
{
    let about = "Puts the line of a scene on the network, behind UDP sockets";
    let words = line_of_serve(alloc)?;
    let serve = command(alloc, "serve", about, help::SERVE, words)?;
    let devices = devices_of_serve(alloc)?;
    more(serve, devices)
}

// The words of `serve` are made by some at a time, as those of `master` are: here `SCENE [--port P]
// [--packets N] [--bind ADDRESS] [--forever] [--control] [--log]`.
#[inline(never)]
fn line_of_serve<'a>(alloc: Global) -> Result<Vec<Arg<'a>>, AllocError>
    ensures { IfOk result (λ words. AreWords serve_words words.items) }
{
    let packets =
        "After how many packets it ends, 1 to 4294967295; at the input's end if not given";
    let address = "The IPv4 address of both ends; 127.0.0.1 if not given, for this machine alone";
    let forever = "Leaves standard input alone, so that it serves on where that has ended";
    let control = "Reads commands to the line from standard input, while it serves";
    let log = "Tells of each packet on standard error, a line each";
    Ok(vec![in alloc;
        scene(alloc),
        port(alloc),
        option(alloc, "N", "packets", packets),
        option(alloc, "ADDRESS", "bind", address),
        flag(alloc, "forever", forever),
        flag(alloc, "control", control),
        flag(alloc, "log", log),
    ]?)
}

// `[--plain] [--set-up] [--sii FOLDER] [--raw RAW] [--pcap PCAP] [--force] [--json]`
#[inline(never)]
fn devices_of_serve<'a>(alloc: Global) -> Result<Vec<Arg<'a>>, AllocError>
    ensures { IfOk result (λ words. AreWords device_words words.items) }
{
    let plain = "Leaves slaves that the scene does not call device without what devices tell";
    let set_up = "Has devices begin as the scene sets them up, and not as just switched on";
    let sii =
        "A folder with what stands in the EEPROMs of devices: 0.bin of the first slave, 1.bin, ..";
    Ok(vec![in alloc;
        flag(alloc, "plain", plain),
        flag(alloc, "set-up", set_up),
        option(alloc, "FOLDER", "sii", sii),
        raw(alloc),
        pcap(alloc),
        force(alloc),
        json(alloc),
    ]?)
}

// `master SCENE [--at AT] [--raw RAW] [--cycles N] [--until-end] [--every MICROSECONDS] [--busy]
// [--limit LIMIT] [--late LATE] [--outputs OUTPUTS] [--log LOG] [--log-images] [--log-or-stop]
// [--clock CLOCK] [--progress PROGRESS] [--json] [--io IO] [--io-open] [--io-stale CYCLES] [--io-rest REST]
// [--control] [--stop] [--recover] [--tries TRIES] [--leave STATE] [--pcap PCAP] [--force]`
fn master<'a>(alloc: Global) -> Result<Command<'a>, AllocError>
    ensures { IfOk result (Builds master_line) }
{
    let about = "Brings the line of a scene to Op, somewhere else, and cycles on it";
    let words = line_of_master(alloc)?;
    let master = command(alloc, "master", about, help::MASTER, words)?;
    let pace = pace_of_master(alloc)?;
    let paced = more(master, pace)?;
    let course = course_of_master(alloc)?;
    let on_course = more(paced, course)?;
    let io = io_of_master(alloc)?;
    let spoken_to = more(on_course, io)?;
    let end = end_of_master(alloc)?;
    more(spoken_to, end)
}

// The words of `master` are made by some at a time, so that not all of them stand on the stack at once: here
// `SCENE [--at AT] [--raw RAW] [--cycles N] [--until-end]`.
#[inline(never)]
fn line_of_master<'a>(alloc: Global) -> Result<Vec<Arg<'a>>, AllocError>
    ensures { IfOk result (λ words. AreWords master_words words.items) }
{
    let cycles = "After how many cycles it ends, 1 to 4294967295; at the input's end if not given";
    let until_end = "With --cycles, ends at the end of standard input too";
    Ok(vec![in alloc;
        scene(alloc),
        at(alloc),
        raw(alloc),
        option(alloc, "N", "cycles", cycles),
        flag(alloc, "until-end", until_end),
    ]?)
}

// `[--every MICROSECONDS] [--busy] [--limit LIMIT] [--late LATE]`
#[inline(never)]
fn pace_of_master<'a>(alloc: Global) -> Result<Vec<Arg<'a>>, AllocError>
    ensures { IfOk result (λ words. AreWords pace_words words.items) }
{
    let every = "How far apart the cycles begin; back to back if not given";
    let busy = "Never sleeps while it waits, which takes a processor of its own";
    let lost = "After how many microseconds a copy counts as lost; if not given 20000, \
        and four fifths of --every at most";
    Ok(vec![in alloc;
        option(alloc, "MICROSECONDS", "every", every),
        flag(alloc, "busy", busy),
        limit(alloc, lost),
        late(alloc),
    ]?)
}

// `[--outputs OUTPUTS] [--log LOG] [--log-images] [--log-or-stop] [--clock CLOCK] [--progress PROGRESS]
// [--json]`
#[inline(never)]
fn course_of_master<'a>(alloc: Global) -> Result<Vec<Arg<'a>>, AllocError>
    ensures { IfOk result (λ words. AreWords course_words words.items) }
{
    let outputs =
        "The outputs: count, or a file with a line for each cycle; the scene's if not given";
    let log = "A file that gets a line for each cycle: its number, its verdict and its counters";
    let images = "Writes to the log what each cycle sent and took, as hexadecimal digits";
    let or_stop = "Ends where the log cannot be written; else the cycles go on without it";
    let stamps =
        "What each line that it prints or logs begins with: utc, the time; none; none if not given";
    let progress = "What standard error is told of its cycles: screen, a page that is drawn anew; \
        lines, one each second; none; at a terminal screen if not given, and none elsewhere";
    Ok(vec![in alloc;
        option(alloc, "OUTPUTS", "outputs", outputs),
        option(alloc, "LOG", "log", log),
        flag(alloc, "log-images", images),
        flag(alloc, "log-or-stop", or_stop),
        clock(alloc, stamps),
        option(alloc, "PROGRESS", "progress", progress),
        json(alloc),
    ]?)
}

// `[--io IO] [--io-open] [--io-stale CYCLES] [--io-rest REST] [--control]`
#[inline(never)]
fn io_of_master<'a>(alloc: Global) -> Result<Vec<Arg<'a>>, AllocError>
    ensures { IfOk result (λ words. AreWords io_words words.items) }
{
    let io = "HOST:PORT where a program gives the outputs and gets the inputs of each cycle";
    let open = "Lets other machines reach that address";
    let stale = "After how many cycles without a packet of the program its outputs are stale";
    let rest = "What stale outputs become: kept, zeros, safe-op; kept if not given";
    let control = "Takes commands from standard input while it cycles, a line each";
    Ok(vec![in alloc;
        option(alloc, "IO", "io", io),
        flag(alloc, "io-open", open),
        option(alloc, "CYCLES", "io-stale", stale),
        option(alloc, "REST", "io-rest", rest),
        flag(alloc, "control", control),
    ]?)
}

// `[--stop] [--recover] [--tries TRIES] [--leave STATE] [--pcap PCAP] [--force]`
#[inline(never)]
fn end_of_master<'a>(alloc: Global) -> Result<Vec<Arg<'a>>, AllocError>
    ensures { IfOk result (λ words. AreWords end_words words.items) }
{
    let recover = "Brings slaves up again that show an error or came back in Init";
    let tries =
        "How often their state is read, behind a cycle each, until it counts as not reached; 1000";
    let leave = "Where slaves are left at the end: init, pre-op, safe-op, op; init if not given";
    Ok(vec![in alloc;
        flag(alloc, "stop", "Ends at the first cycle that is not good"),
        flag(alloc, "recover", recover),
        option(alloc, "TRIES", "tries", tries),
        option(alloc, "STATE", "leave", leave),
        pcap(alloc),
        force(alloc),
    ]?)
}

// `scan [--at AT] [--raw RAW] [--through THROUGH] [--limit LIMIT] [--late LATE] [--scene SCENE] [--force]
// [--json]`
fn scan<'a>(alloc: Global) -> Result<Command<'a>, AllocError>
    ensures { IfOk result (Builds scan_line) }
{
    let about = "Tells what slaves a line somewhere else has";
    let scene = "A file that gets the line as a scene; it must not be there yet";
    let lost = "After how many microseconds a copy counts as lost; 20000 if not given";
    let words = vec![in alloc;
        at(alloc),
        raw(alloc),
        through(alloc),
        limit(alloc, lost),
        late(alloc),
        option(alloc, "SCENE", "scene", scene),
        force(alloc),
        json(alloc),
    ]?;
    command(alloc, "scan", about, help::SCAN, words)
}

// `sii FILE [PLACE] [--write WRITE] [--force]`
fn sii<'a>(alloc: Global) -> Result<Command<'a>, AllocError>
    ensures { IfOk result (Builds sii_line) }
{
    let about = "Prints what the EEPROM of a slave says";
    let file = "The bytes of the EEPROM, or with PLACE a scene";
    let place = "The place of the slave in the scene, 0 for the first one";
    let write = "A file that gets the bytes; it must not be there yet";
    let words = vec![in alloc;
        needed(alloc, "FILE", file),
        optional(alloc, "PLACE", place),
        option(alloc, "WRITE", "write", write),
        force(alloc),
    ]?;
    command(alloc, "sii", about, help::SII, words)
}

// The line with one command more, if memory lasts.
fn add<'a>(
    line: Result<Command<'a>, AllocError>,
    command: Result<Command<'a>, AllocError>,
) -> Result<Command<'a>, AllocError>
    ensures { (above below : App) → IfOk line.entry (Builds above) → IfOk command.entry (Builds below)
        → IfOk result (Builds (with_subcommand above below.top)) }
{
    line?.subcommand(command?)
}

// The program's name, behind which a command has to follow.
fn ecat<'a>(alloc: Global) -> Command<'a>
    ensures { Builds ecat_setup result }
{
    let about = "An EtherCAT master and a ring of slaves";
    plain(alloc, "ecat", about, help::ECAT).subcommand_required(true)
}

// `vectors`
fn vectors<'a>(alloc: Global) -> Command<'a>
    ensures { Builds vectors_line result }
{
    plain(alloc, "vectors", "Runs the worked rows", help::VECTORS)
}

// The line with the commands on captures. The commands come in three parts, so that not all of them stand on
// the stack at once.
#[inline(never)]
fn add_on_captures<'a>(
    alloc: Global,
    line: Result<Command<'a>, AllocError>,
) -> Result<Command<'a>, AllocError>
    ensures { (above : App) → IfOk line.entry (Builds above)
        → IfOk result (Builds (with_commands above capture_lines)) }
{
    let line = add(line, show(alloc));
    let line = add(line, list(alloc));
    let line = add(line, learn(alloc));
    let line = add(line, judge_capture(alloc));
    add(line, replay(alloc))
}

// The line with the commands on the line of a scene.
#[inline(never)]
fn add_on_scenes<'a>(
    alloc: Global,
    line: Result<Command<'a>, AllocError>,
) -> Result<Command<'a>, AllocError>
    ensures { (above : App) → IfOk line.entry (Builds above)
        → IfOk result (Builds (with_commands above scene_lines)) }
{
    let line = add(line, check(alloc));
    let line = add(line, cover(alloc));
    let line = add(line, lint(alloc));
    let line = add(line, where_broken(alloc));
    let line = add(line, run(alloc));
    let line = add(line, sweep(alloc));
    add(line, sdo(alloc))
}

// The line with the commands over sockets, what an EEPROM says, and the worked rows.
#[inline(never)]
fn add_over_sockets<'a>(
    alloc: Global,
    line: Result<Command<'a>, AllocError>,
) -> Result<Command<'a>, AllocError>
    ensures { (above : App) → IfOk line.entry (Builds above)
        → IfOk result (Builds (with_commands above socket_lines)) }
{
    let line = add(line, udp(alloc));
    let line = add(line, serve(alloc));
    let line = add(line, master(alloc));
    let line = add(line, scan(alloc));
    let line = add(line, sii(alloc));
    add(line, Ok(vectors(alloc)))
}

/// The definition of the whole command line: eighteen commands, of which one has to be given, each with its
/// words, and the texts of their help.
pub fn line<'a>(alloc: Global) -> Result<Command<'a>, AllocError>
    ensures { IfOk result (Builds line) }
{
    let line = add_on_captures(alloc, Ok(ecat(alloc)));
    let line = add_on_scenes(alloc, line);
    add_over_sockets(alloc, line)
}
