//! The commands of the program by what they open first, with their texts and numbers.

use crate::number::Value;
use std::net::Ipv4Addr;

/// A command on a capture.
#[derive(Clone, Copy, Debug)]
pub enum CaptureCommand<'a> {
    /// `show FILE`: prints the frames of a capture.
    Show {
        /// The path of the capture.
        file: &'a str,
    },
    /// `list FILE [--csv] [--faults] [--stats] [--index] [--json]`: lists the datagrams of a capture.
    List {
        /// The path of the capture; `-` stands for standard input.
        file: &'a str,
        /// Whether values are separated by commas.
        csv: bool,
        /// Whether damaged packets alone are listed.
        faults: bool,
        /// Whether working counters are counted instead.
        stats: bool,
        /// Whether the datagrams of each index are counted apart.
        by_index: bool,
        /// Whether objects of JSON are printed.
        json: bool,
    },
    /// `learn FILE [--at PACKET] [--asked] [--data]`: writes the line that a capture shows as a scene.
    Learn {
        /// The path of the capture; `-` stands for standard input.
        file: &'a str,
        /// The number of the packet in front of which the line is told, from 1.
        at: Option<u32>,
        /// Whether what was sent counts as taken where there are no answers.
        asked: bool,
        /// Whether items and inputs have their last data.
        values: bool,
    },
    /// `judge FILE [SCENE] [--csv] [--limit LINES] [--clock CLOCK] [--json]`: says which cycles of a capture
    /// were not good.
    Judge {
        /// The path of the capture; `-` stands for standard input.
        file: &'a str,
        /// The path of the scene; without it the line is the one that the capture shows.
        scene: Option<&'a str>,
        /// Whether values are separated by commas.
        csv: bool,
        /// How many lines of runs are printed, one at least.
        lines: Option<u32>,
        /// What stands beside each time: `utc`, or `none`.
        clock: Option<&'a str>,
        /// Whether objects of JSON are printed.
        json: bool,
    },
    /// `replay FILE SCENE [--plain] [--set-up]`: sends what the master of a capture sent to the line of a
    /// scene.
    Replay {
        /// The path of the capture; `-` stands for standard input.
        file: &'a str,
        /// The path of the scene.
        scene: &'a str,
        /// Whether slaves that the scene does not call device are no devices.
        plain: bool,
        /// Whether devices begin as the scene sets them up, and not as just switched on.
        set_up: bool,
    },
}

/// A command on the line of a scene.
#[derive(Clone, Copy, Debug)]
pub enum SceneCommand<'a> {
    /// `check SCENE [--json]`: says whether the line of a scene is fit.
    Check {
        /// Whether objects of JSON are printed.
        json: bool,
    },
    /// `cover SCENE [--json]`: says whether the items of a scene carry all that its line is mapped for.
    Cover {
        /// Whether objects of JSON are printed.
        json: bool,
    },
    /// `lint SCENE [--json]`: names what a scene says that is accepted and yet seldom meant.
    Lint {
        /// Whether objects of JSON are printed.
        json: bool,
    },
    /// `where SCENE [--at AT] [--raw RAW] [--through THROUGH] [--json]`: says where the cable of a scene is
    /// broken, and who is missing.
    Where {
        /// Where the line lies, if it is reached by UDP: the address of an end, or of both.
        at: Option<&'a str>,
        /// The descriptors of packet sockets, if it is reached by network interfaces.
        raw: Option<&'a str>,
        /// The door of the master that runs on the line, if that is asked.
        through: Option<&'a str>,
        /// Whether objects of JSON are printed.
        json: bool,
    },
    /// `run SCENE [--judge] [--pcap PCAP] [--force]`: does the actions of a scene, and then its work.
    Run {
        /// Whether its cycle is judged, and what is short is named.
        judge: bool,
        /// The path of a capture that gets each copy, as it leaves and as it arrives.
        pcap: Option<&'a str>,
        /// Whether a capture that is there is overwritten.
        force: bool,
    },
    /// `sweep SCENE`: does the cycle of a scene whole, and with each cable broken.
    Sweep,
    /// `sdo SCENE STATION INDEX SUB [VALUE] [--surely] [--once] [--at AT] [--raw RAW] [--through THROUGH]`:
    /// one upload, or a download of the value.
    Sdo {
        /// The configured station address of the slave.
        station: u16,
        /// The index of the object.
        index: u16,
        /// The subindex of the object.
        sub: u8,
        /// What to write; without it the object is read.
        value: Option<Value>,
        /// Whether trips are made until it is done, whatever copies are lost.
        surely: bool,
        /// Whether a line somewhere else is asked once, whatever copies are lost.
        once: bool,
        /// Where the line lies, if it is reached by UDP: the address of an end, or of both.
        at: Option<&'a str>,
        /// The descriptors of packet sockets, if it is reached by network interfaces.
        raw: Option<&'a str>,
        /// The door of the master that runs on the line, if that is asked.
        through: Option<&'a str>,
    },
    /// `udp SCENE [--port P] [--judge] [--pcap PCAP] [--force]`: does the work of a scene by UDP sockets.
    Udp {
        /// The port of the line's end A, 1024 to 65534. The end B has the next one.
        port: u16,
        /// Whether what is short is named.
        judge: bool,
        /// The path of a capture that gets each copy, as it leaves and as it arrives.
        pcap: Option<&'a str>,
        /// Whether a capture that is there is overwritten.
        force: bool,
    },
    /// `serve SCENE [--port P] [--packets N] [--bind ADDRESS] [--forever] [--control] [--log] [--plain]
    /// [--set-up] [--sii FOLDER] [--raw RAW] [--pcap PCAP] [--force] [--json]`: puts the line of a scene on
    /// the network.
    Serve {
        /// The port of the line's end A, 1024 to 65534. The end B has the next one.
        port: u16,
        /// After how many packets it ends, one at least; without it at the end of the input.
        packets: Option<u32>,
        /// The address of both ends: that of this machine alone, unless another one was given.
        address: Ipv4Addr,
        /// Whether it serves on where the input has ended.
        forever: bool,
        /// Whether the lines of the input are commands to the line.
        control: bool,
        /// Whether each packet is told of.
        log: bool,
        /// Whether slaves of which the scene does not say it are no devices.
        plain: bool,
        /// Whether devices begin as the scene sets them up, and not as just switched on.
        set_up: bool,
        /// The path of a folder with what stands in the EEPROMs of devices.
        sii: Option<&'a str>,
        /// The descriptors of packet sockets, if its ends lie at network interfaces.
        raw: Option<&'a str>,
        /// The path of a capture that gets each copy, as it comes and as it leaves.
        pcap: Option<&'a str>,
        /// Whether a capture that is there is overwritten.
        force: bool,
        /// Whether what it tells are objects of JSON.
        json: bool,
    },
    /// `master SCENE [--at AT] [--raw RAW] [--cycles N] [--until-end] [--every MICROSECONDS] [--busy]
    /// [--limit LIMIT] [--late LATE] [--outputs OUTPUTS] [--log LOG] [--log-images] [--log-or-stop]
    /// [--clock CLOCK] [--progress PROGRESS] [--json] [--io IO] [--io-open] [--io-stale CYCLES]
    /// [--io-rest REST] [--control] [--stop] [--recover] [--tries TRIES] [--leave STATE] [--pcap PCAP]
    /// [--force]`: brings a line somewhere else to Op, cycles on it, and leaves it in a state.
    Master(MasterWords<'a>),
}

/// What the words of `master` say but for its scene.
#[derive(Clone, Copy, Debug)]
pub struct MasterWords<'a> {
    /// Where the line lies, if it is reached by UDP: the address of an end, or of both.
    pub at: Option<&'a str>,
    /// The descriptors of packet sockets, if it is reached by network interfaces.
    pub raw: Option<&'a str>,
    /// After how many cycles it ends, one at least; without it at the end of the input.
    pub cycles: Option<u32>,
    /// Whether it ends with the input too where it ends after so many cycles.
    pub until_end: bool,
    /// How many microseconds lie between the beginnings of cycles; without it they are back to back.
    pub every: Option<u32>,
    /// Whether it never sleeps while it waits.
    pub busy: bool,
    /// How many microseconds a copy is waited for.
    pub limit: Option<u32>,
    /// For how many milliseconds a missing copy may still come.
    pub late: Option<u32>,
    /// What the outputs are: `count`, or the path of a file; without it those of the scene.
    pub outputs: Option<&'a str>,
    /// The path of a file that gets a line for each cycle.
    pub log: Option<&'a str>,
    /// Whether that line has what the cycle sent and took.
    pub log_images: bool,
    /// Whether it ends where the log cannot be written.
    pub log_or_stop: bool,
    /// What each line begins with that it writes and logs: `utc`, or `none`.
    pub clock: Option<&'a str>,
    /// What standard error is told of its cycles: `screen`, `lines` or `none`.
    pub progress: Option<&'a str>,
    /// Whether what it tells are objects of JSON.
    pub json: bool,
    /// The address where a program gives the outputs and gets the inputs of each cycle.
    pub io: Option<&'a str>,
    /// Whether other machines may reach that address.
    pub io_open: bool,
    /// After how many cycles without a packet of the program its outputs are stale, one at least.
    pub io_stale: Option<u32>,
    /// What stale outputs become: `kept` or `zeros`.
    pub io_rest: Option<&'a str>,
    /// Whether the lines of the input are done between its cycles.
    pub control: bool,
    /// Whether it ends at the first cycle that is not good.
    pub stop: bool,
    /// Whether slaves are brought up again.
    pub recover: bool,
    /// How often a state that they are asked for is read, behind a cycle each, one at least.
    pub tries: Option<u32>,
    /// The name of the state in which the slaves are left at the end.
    pub leave: Option<&'a str>,
    /// The path of a capture that gets each copy, as it leaves and as it arrives.
    pub pcap: Option<&'a str>,
    /// Whether a capture that is there is overwritten.
    pub force: bool,
}

/// What the words of `scan` say.
#[derive(Clone, Copy, Debug)]
pub struct ScanWords<'a> {
    /// Where the line lies, if it is reached by UDP: the address of an end, or of both.
    pub at: Option<&'a str>,
    /// The descriptors of packet sockets, if it is reached by network interfaces.
    pub raw: Option<&'a str>,
    /// The door of the master that runs on the line, if that is asked.
    pub through: Option<&'a str>,
    /// How many microseconds a copy is waited for.
    pub limit: Option<u32>,
    /// For how many milliseconds a missing copy may still come.
    pub late: Option<u32>,
    /// The path of a file that gets the line as a scene.
    pub scene: Option<&'a str>,
    /// Whether a scene that is there is overwritten.
    pub force: bool,
    /// Whether objects of JSON are printed.
    pub json: bool,
}

/// What the words of `sii` say.
#[derive(Clone, Copy, Debug)]
pub struct SiiWords<'a> {
    /// The path of the bytes of an EEPROM, or of a scene.
    pub file: &'a str,
    /// The place of a slave, where the file is a scene; the first one's is 0.
    pub place: Option<u32>,
    /// The path of a file that gets the bytes.
    pub write: Option<&'a str>,
    /// Whether a file that is there is overwritten.
    pub force: bool,
}
