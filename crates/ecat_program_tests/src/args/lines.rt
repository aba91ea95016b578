//! The commands, and lines that are none of them.
use super::{Refusal, assert_rows, read};
use clap::error::ErrorKind;

/// The commands that do no cycle by sockets: with their words, and with what may be asked beside them.
const COMMANDS: &str = "\
show a.pcap | Ok(Capture(Show { file: \"a.pcap\" }))
check a.scene | Ok(Scene { path: \"a.scene\", command: Check { json: false } })
lint a.scene | Ok(Scene { path: \"a.scene\", command: Lint { json: false } })
run a.scene | Ok(Scene { path: \"a.scene\", command: Run { judge: false, pcap: None, force: false } })
cover a.scene | Ok(Scene { path: \"a.scene\", command: Cover { json: false } })
where a.scene | Ok(Scene { path: \"a.scene\", command: Where { at: None, raw: None, \
    through: None, json: false } })
check --json a.scene | Ok(Scene { path: \"a.scene\", command: Check { json: true } })
lint a.scene --json | Ok(Scene { path: \"a.scene\", command: Lint { json: true } })
cover a.scene --json | Ok(Scene { path: \"a.scene\", command: Cover { json: true } })
where --json a.scene | Ok(Scene { path: \"a.scene\", command: Where { at: None, raw: None, \
    through: None, json: true } })
list a.pcap --json --stats | Ok(Capture(List { file: \"a.pcap\", csv: false, faults: false, stats: true, \
    by_index: false, json: true }))
judge --json a.pcap | \
    Ok(Capture(Judge { file: \"a.pcap\", scene: None, csv: false, lines: None, \
    clock: None, json: true }))
sweep a.scene | Ok(Scene { path: \"a.scene\", command: Sweep })
vectors | Ok(Vectors)
show -- --help | Ok(Capture(Show { file: \"--help\" }))
list - --faults | Ok(Capture(List { file: \"-\", csv: false, faults: true, stats: false, \
    by_index: false, json: false }))
list --csv a.pcap --stats | Ok(Capture(List { file: \"a.pcap\", csv: true, faults: false, stats: true, \
    by_index: false, json: false }))
list --index --stats a.pcap | Ok(Capture(List { file: \"a.pcap\", csv: false, faults: false, stats: true, \
    by_index: true, json: false }))
learn a.pcap | Ok(Capture(Learn { file: \"a.pcap\", at: None, asked: false, values: false }))
learn --asked - --at 0x10 --data | Ok(Capture(Learn { file: \"-\", at: Some(16), asked: true, values: true }))
judge a.pcap | Ok(Capture(Judge { file: \"a.pcap\", scene: None, csv: false, lines: None, \
    clock: None, json: false }))
judge a.pcap --csv a.scene --limit 7 --clock utc | \
    Ok(Capture(Judge { file: \"a.pcap\", scene: Some(\"a.scene\"), csv: true, lines: Some(7), \
    clock: Some(\"utc\"), json: false }))
replay a.pcap a.scene | \
    Ok(Capture(Replay { file: \"a.pcap\", scene: \"a.scene\", plain: false, set_up: false }))
replay --set-up a.pcap --plain - | \
    Ok(Capture(Replay { file: \"a.pcap\", scene: \"-\", plain: true, set_up: true }))
replay a.pcap | Err(Line(MissingRequiredArgument))
where a.scene --at a:1,b:2 | Ok(Scene { path: \"a.scene\", command: Where { at: Some(\"a:1,b:2\"), \
    raw: None, through: None, json: false } })
where a.scene --through a:1 | Ok(Scene { path: \"a.scene\", command: Where { at: None, raw: None, \
    through: Some(\"a:1\"), json: false } })
scan --through a:1 | Ok(Scan(ScanWords { at: None, raw: None, through: Some(\"a:1\"), limit: None, \
    late: None, scene: None, force: false, json: false }))
sii 0.bin | Ok(Sii(SiiWords { file: \"0.bin\", place: None, write: None, force: false }))
sii --force a.scene --write 3.bin 0x3 | \
    Ok(Sii(SiiWords { file: \"a.scene\", place: Some(3), write: Some(\"3.bin\"), force: true }))
sii a.scene -1 | Err(Line(UnknownArgument))
sii a.scene x | Err(BadNumber)
sii | Err(Line(MissingRequiredArgument))
where --raw=10 a.scene | Ok(Scene { path: \"a.scene\", command: Where { at: None, raw: Some(\"10\"), \
    through: None, json: false } })
scan --at=a:1,b:2 --limit 50 | Ok(Scan(ScanWords { at: Some(\"a:1,b:2\"), raw: None, \
    through: None, limit: Some(50), \
    late: None, \
    scene: None, force: false, json: false }))
scan --raw 10,11 | Ok(Scan(ScanWords { at: None, raw: Some(\"10,11\"), \
    through: None, limit: None, late: None, \
    scene: None, force: false, json: false }))
scan --at a:1 --scene found.scene --force --json | Ok(Scan(ScanWords { at: Some(\"a:1\"), raw: None, \
    through: None, limit: None, \
    late: None, \
    scene: Some(\"found.scene\"), force: true, json: true }))
scan --late 0x10 --at a:1 | Ok(Scan(ScanWords { at: Some(\"a:1\"), raw: None, \
    through: None, limit: None, late: Some(16), \
    scene: None, force: false, json: false }))
master a.scene --at a:1 | \
    Ok(Scene { path: \"a.scene\", command: Master(MasterWords { at: Some(\"a:1\"), raw: None, \
    cycles: None, until_end: false, every: None, busy: false, limit: None, \
    late: None, outputs: None, log: None, log_images: false, log_or_stop: false, clock: None, \
    progress: None, json: false, io: None, io_open: false, \
    io_stale: None, io_rest: None, control: false, stop: false, \
    recover: false, tries: None, leave: None, pcap: None, force: false }) })
master a.scene --late 250 --leave safe-op | \
    Ok(Scene { path: \"a.scene\", command: Master(MasterWords { at: None, raw: None, cycles: None, \
    until_end: false, every: None, busy: false, limit: None, \
    late: Some(250), outputs: None, log: None, log_images: false, log_or_stop: false, clock: None, \
    progress: None, json: false, io: None, \
    io_open: false, io_stale: None, io_rest: None, control: false, stop: false, \
    recover: false, tries: None, \
    leave: Some(\"safe-op\"), pcap: None, force: false }) })
master a.scene --raw 10 --cycles 7 --every 1000 --limit 2000 --outputs count --log f --stop --recover \
    --busy | \
    Ok(Scene { path: \"a.scene\", command: Master(MasterWords { at: None, raw: Some(\"10\"), \
    cycles: Some(7), until_end: false, every: Some(1000), busy: true, \
    limit: Some(2000), late: None, outputs: Some(\"count\"), log: Some(\"f\"), log_images: false, \
    log_or_stop: false, clock: None, \
    progress: None, json: false, io: None, io_open: false, io_stale: None, io_rest: None, control: false, \
    stop: true, recover: true, tries: None, leave: None, pcap: None, force: false }) })
master a.scene --at a:1 --log f --log-images --log-or-stop --clock utc --progress lines --json --until-end \
    --pcap a.pcap --force | \
    Ok(Scene { path: \"a.scene\", command: Master(MasterWords { at: Some(\"a:1\"), raw: None, \
    cycles: None, until_end: true, every: None, busy: false, limit: None, \
    late: None, outputs: None, log: Some(\"f\"), log_images: true, log_or_stop: true, clock: Some(\"utc\"), \
    progress: Some(\"lines\"), json: true, io: None, \
    io_open: false, io_stale: None, io_rest: None, control: false, stop: false, \
    recover: false, tries: None, leave: None, \
    pcap: Some(\"a.pcap\"), force: true }) })
master a.scene --at a:1 --io b:2 --io-open --io-stale 9 --io-rest zeros | \
    Ok(Scene { path: \"a.scene\", command: Master(MasterWords { at: Some(\"a:1\"), raw: None, \
    cycles: None, until_end: false, every: None, busy: false, limit: None, \
    late: None, outputs: None, log: None, log_images: false, log_or_stop: false, clock: None, \
    progress: None, json: false, io: Some(\"b:2\"), \
    io_open: true, io_stale: Some(9), io_rest: Some(\"zeros\"), control: false, stop: false, \
    recover: false, tries: None, leave: None, pcap: None, force: false }) })
master a.scene --at a:1 --control | \
    Ok(Scene { path: \"a.scene\", command: Master(MasterWords { at: Some(\"a:1\"), raw: None, \
    cycles: None, until_end: false, every: None, busy: false, limit: None, \
    late: None, outputs: None, log: None, log_images: false, log_or_stop: false, clock: None, \
    progress: None, json: false, io: None, io_open: false, \
    io_stale: None, io_rest: None, control: true, stop: false, \
    recover: false, tries: None, leave: None, pcap: None, force: false }) })
master a.scene --at a:1 --recover --tries 5000 | \
    Ok(Scene { path: \"a.scene\", command: Master(MasterWords { at: Some(\"a:1\"), raw: None, \
    cycles: None, until_end: false, every: None, busy: false, limit: None, \
    late: None, outputs: None, log: None, log_images: false, log_or_stop: false, clock: None, \
    progress: None, json: false, io: None, \
    io_open: false, io_stale: None, io_rest: None, control: false, stop: false, \
    recover: true, tries: Some(5000), leave: None, pcap: None, force: false }) })
sdo a.scene 0x1001 0x1018 1 | \
    Ok(Scene { path: \"a.scene\", command: Sdo { station: 4097, index: 4120, sub: 1, value: None, \
    surely: false, once: false, at: None, raw: None, through: None } })
sdo a.scene 1 2 3 0x0405 | \
    Ok(Scene { path: \"a.scene\", command: Sdo { station: 1, index: 2, sub: 3, value: Some(Two(1029)), \
    surely: false, once: false, at: None, raw: None, through: None } })
sdo a.scene 1 2 3 --surely | \
    Ok(Scene { path: \"a.scene\", command: Sdo { station: 1, index: 2, sub: 3, value: None, surely: true, \
    once: false, at: None, raw: None, through: None } })
sdo --surely a.scene 1 2 3 | \
    Ok(Scene { path: \"a.scene\", command: Sdo { station: 1, index: 2, sub: 3, value: None, surely: true, \
    once: false, at: None, raw: None, through: None } })
sdo --once a.scene 1 2 3 --raw 10,11 | \
    Ok(Scene { path: \"a.scene\", command: Sdo { station: 1, index: 2, sub: 3, value: None, surely: false, \
    once: true, at: None, raw: Some(\"10,11\"), through: None } })
sdo a.scene 1 2 3 --through a:1 | \
    Ok(Scene { path: \"a.scene\", command: Sdo { station: 1, index: 2, sub: 3, value: None, surely: false, \
    once: false, at: None, raw: None, through: Some(\"a:1\") } })
sdo a.scene 1 2 3 --surely 0x04 | \
    Ok(Scene { path: \"a.scene\", command: Sdo { station: 1, index: 2, sub: 3, value: Some(One(4)), \
    surely: true, \
    once: false, at: None, raw: None, through: None } })";

/// Cycles: judged, with their copies kept, and by the port that is given or by 34980.
const CYCLES: &str = "\
udp a.scene | Ok(Scene { path: \"a.scene\", command: Udp { port: 34980, judge: false, pcap: None, \
    force: false } })
udp a.scene --port 4000 | Ok(Scene { path: \"a.scene\", command: Udp { port: 4000, judge: false, \
    pcap: None, force: false } })
udp --port=4000 a.scene | Ok(Scene { path: \"a.scene\", command: Udp { port: 4000, judge: false, \
    pcap: None, force: false } })
run a.scene --judge | Ok(Scene { path: \"a.scene\", command: Run { judge: true, pcap: None, force: false } })
run --judge a.scene | Ok(Scene { path: \"a.scene\", command: Run { judge: true, pcap: None, force: false } })
udp --judge --port 4000 a.scene | \
    Ok(Scene { path: \"a.scene\", command: Udp { port: 4000, judge: true, pcap: None, force: false } })
run -- --judge | Ok(Scene { path: \"--judge\", command: Run { judge: false, pcap: None, force: false } })
run a.scene --pcap a.pcap | \
    Ok(Scene { path: \"a.scene\", command: Run { judge: false, pcap: Some(\"a.pcap\"), force: false } })
udp a.scene --force --pcap=a.pcap | \
    Ok(Scene { path: \"a.scene\", command: Udp { port: 34980, judge: false, pcap: Some(\"a.pcap\"), \
    force: true } })";

/// A line that is served: by the port that is given or by 34980, at this machine's address or another, until
/// so many packets or the end of the input.
const SERVED: &str = "\
serve a.scene | \
    Ok(Scene { path: \"a.scene\", command: Serve { port: 34980, packets: None, address: 127.0.0.1, \
    forever: false, \
    control: false, log: false, plain: false, \
    set_up: false, sii: None, raw: None, pcap: None, force: false, json: false } })
serve a.scene --port 4000 | \
    Ok(Scene { path: \"a.scene\", command: Serve { port: 4000, packets: None, address: 127.0.0.1, \
    forever: false, \
    control: false, log: false, plain: false, \
    set_up: false, sii: None, raw: None, pcap: None, force: false, json: false } })
serve --port=4000 a.scene | \
    Ok(Scene { path: \"a.scene\", command: Serve { port: 4000, packets: None, address: 127.0.0.1, \
    forever: false, \
    control: false, log: false, plain: false, \
    set_up: false, sii: None, raw: None, pcap: None, force: false, json: false } })
serve a.scene --packets 100 | \
    Ok(Scene { path: \"a.scene\", command: Serve { port: 34980, packets: Some(100), address: 127.0.0.1, \
    forever: false, \
    control: false, log: false, plain: false, \
    set_up: false, sii: None, raw: None, pcap: None, force: false, json: false } })
serve --packets=0x64 a.scene --port 4000 | \
    Ok(Scene { path: \"a.scene\", command: Serve { port: 4000, packets: Some(100), address: 127.0.0.1, \
    forever: false, \
    control: false, log: false, plain: false, \
    set_up: false, sii: None, raw: None, pcap: None, force: false, json: false } })
serve --port 4000 --packets 100 a.scene | \
    Ok(Scene { path: \"a.scene\", command: Serve { port: 4000, packets: Some(100), address: 127.0.0.1, \
    forever: false, \
    control: false, log: false, plain: false, \
    set_up: false, sii: None, raw: None, pcap: None, force: false, json: false } })
serve a.scene --control | \
    Ok(Scene { path: \"a.scene\", command: Serve { port: 34980, packets: None, address: 127.0.0.1, \
    forever: false, \
    control: true, log: false, plain: false, \
    set_up: false, sii: None, raw: None, pcap: None, force: false, json: false } })
serve --control --packets=100 --port 4000 a.scene | \
    Ok(Scene { path: \"a.scene\", command: Serve { port: 4000, packets: Some(100), address: 127.0.0.1, \
    forever: false, \
    control: true, log: false, plain: false, \
    set_up: false, sii: None, raw: None, pcap: None, force: false, json: false } })
serve --log a.scene --bind 192.168.0.7 --forever | \
    Ok(Scene { path: \"a.scene\", command: Serve { port: 34980, packets: None, address: 192.168.0.7, \
    forever: true, \
    control: false, log: true, plain: false, \
    set_up: false, sii: None, raw: None, pcap: None, force: false, json: false } })
serve --forever --bind=192.168.0.7 --log a.scene | \
    Ok(Scene { path: \"a.scene\", command: Serve { port: 34980, packets: None, address: 192.168.0.7, \
    forever: true, \
    control: false, log: true, plain: false, \
    set_up: false, sii: None, raw: None, pcap: None, force: false, json: false } })
serve --plain a.scene | \
    Ok(Scene { path: \"a.scene\", command: Serve { port: 34980, packets: None, address: 127.0.0.1, \
    forever: false, \
    control: false, log: false, plain: true, \
    set_up: false, sii: None, raw: None, pcap: None, force: false, json: false } })
serve --set-up a.scene | \
    Ok(Scene { path: \"a.scene\", command: Serve { port: 34980, packets: None, address: 127.0.0.1, \
    forever: false, \
    control: false, log: false, plain: false, \
    set_up: true, sii: None, raw: None, pcap: None, force: false, json: false } })
serve a.scene --sii of | \
    Ok(Scene { path: \"a.scene\", command: Serve { port: 34980, packets: None, address: 127.0.0.1, \
    forever: false, \
    control: false, log: false, plain: false, \
    set_up: false, sii: Some(\"of\"), raw: None, pcap: None, force: false, json: false } })
serve a.scene --pcap a.pcap --force | \
    Ok(Scene { path: \"a.scene\", command: Serve { port: 34980, packets: None, address: 127.0.0.1, \
    forever: false, \
    control: false, log: false, plain: false, \
    set_up: false, sii: None, raw: None, pcap: Some(\"a.pcap\"), force: true, json: false } })";

/// The digits of a value give its size.
const VALUES: &str = "\
sdo a.scene 1 1 1 0x02 | \
    Ok(Scene { path: \"a.scene\", command: Sdo { station: 1, index: 1, sub: 1, value: Some(One(2)), \
    surely: false, once: false, at: None, raw: None, through: None } })
sdo a.scene 1 1 1 0xFf | \
    Ok(Scene { path: \"a.scene\", command: Sdo { station: 1, index: 1, sub: 1, value: Some(One(255)), \
    surely: false, once: false, at: None, raw: None, through: None } })
sdo a.scene 1 1 1 0x0002 | \
    Ok(Scene { path: \"a.scene\", command: Sdo { station: 1, index: 1, sub: 1, value: Some(Two(2)), \
    surely: false, once: false, at: None, raw: None, through: None } })
sdo a.scene 1 1 1 0xABcd | \
    Ok(Scene { path: \"a.scene\", command: Sdo { station: 1, index: 1, sub: 1, value: Some(Two(43981)), \
    surely: false, once: false, at: None, raw: None, through: None } })
sdo a.scene 1 1 1 0x00000002 | \
    Ok(Scene { path: \"a.scene\", command: Sdo { station: 1, index: 1, sub: 1, value: Some(Four(2)), \
    surely: false, once: false, at: None, raw: None, through: None } })
sdo a.scene 1 1 1 0xffffffff | \
    Ok(Scene { path: \"a.scene\", command: Sdo { station: 1, index: 1, sub: 1, \
    value: Some(Four(4294967295)), surely: false, \
    once: false, at: None, raw: None, through: None } })";

/// Numbers at the ends of their ranges: ports from 1024 to 65534, packets from 1 to 4294967295, addresses of
/// four decimal numbers. What is a bad number is told by the program, and so is what an object's are.
const ENDS: &str = "\
udp a.scene --port 1024 | Ok(Scene { path: \"a.scene\", command: Udp { port: 1024, judge: false, \
    pcap: None, force: false } })
udp a.scene --port 65534 | \
    Ok(Scene { path: \"a.scene\", command: Udp { port: 65534, judge: false, pcap: None, force: false } })
udp a.scene --port 0xfffe | \
    Ok(Scene { path: \"a.scene\", command: Udp { port: 65534, judge: false, pcap: None, force: false } })
serve a.scene --port 1024 | \
    Ok(Scene { path: \"a.scene\", command: Serve { port: 1024, packets: None, address: 127.0.0.1, \
    forever: false, \
    control: false, log: false, plain: false, \
    set_up: false, sii: None, raw: None, pcap: None, force: false, json: false } })
serve a.scene --port 0xfffe | \
    Ok(Scene { path: \"a.scene\", command: Serve { port: 65534, packets: None, address: 127.0.0.1, \
    forever: false, \
    control: false, log: false, plain: false, \
    set_up: false, sii: None, raw: None, pcap: None, force: false, json: false } })
serve a.scene --packets 1 | \
    Ok(Scene { path: \"a.scene\", command: Serve { port: 34980, packets: Some(1), address: 127.0.0.1, \
    forever: false, \
    control: false, log: false, plain: false, \
    set_up: false, sii: None, raw: None, pcap: None, force: false, json: false } })
serve a.scene --packets 4294967295 | \
    Ok(Scene { path: \"a.scene\", command: Serve { port: 34980, packets: Some(4294967295), \
    address: 127.0.0.1, \
    forever: false, control: false, log: false, plain: false, \
    set_up: false, sii: None, raw: None, pcap: None, force: false, json: false } })
serve a.scene --packets 0xffffffff | \
    Ok(Scene { path: \"a.scene\", command: Serve { port: 34980, packets: Some(4294967295), \
    address: 127.0.0.1, \
    forever: false, control: false, log: false, plain: false, \
    set_up: false, sii: None, raw: None, pcap: None, force: false, json: false } })
serve a.scene --bind 0.0.0.0 | \
    Ok(Scene { path: \"a.scene\", command: Serve { port: 34980, packets: None, address: 0.0.0.0, \
    forever: false, \
    control: false, log: false, plain: false, \
    set_up: false, sii: None, raw: None, pcap: None, force: false, json: false } })
serve a.scene --bind 255.10.9.1 | \
    Ok(Scene { path: \"a.scene\", command: Serve { port: 34980, packets: None, address: 255.10.9.1, \
    forever: false, \
    control: false, log: false, plain: false, \
    set_up: false, sii: None, raw: None, pcap: None, force: false, json: false } })";

/// A flag has no value, is given once and to some commands alone; an option has a value.
const FLAGS: &str = "\
run a.scene --judge=true | Err(Line(TooManyValues))
run a.scene --judge --judge | Err(Line(ArgumentConflict))
sweep a.scene --judge | Err(Line(UnknownArgument))
sdo a.scene 1 2 3 --surely=0x04 | Err(Line(TooManyValues))
serve a.scene --control --control | Err(Line(ArgumentConflict))
udp a.scene --surely | Err(Line(UnknownArgument))
run a.scene --pcap | Err(Line(InvalidValue))
sweep a.scene --force | Err(Line(UnknownArgument))";

/// No command, commands that there are not, and calls for help.
const CALLS: &str = "\
| Err(Line(MissingSubcommand))
probe | Err(Line(InvalidSubcommand))
Show a.pcap | Err(Line(InvalidSubcommand))
--help | Err(Line(DisplayHelp))
-h | Err(Line(DisplayHelp))
help | Err(Line(DisplayHelp))
sdo --help | Err(Line(DisplayHelp))
help serve | Err(Line(DisplayHelp))";

/// A word too few, and a word too many.
const COUNTS: &str = "\
show | Err(Line(MissingRequiredArgument))
check | Err(Line(MissingRequiredArgument))
run | Err(Line(MissingRequiredArgument))
sdo a.scene 1 2 | Err(Line(MissingRequiredArgument))
udp --port 4000 | Err(Line(MissingRequiredArgument))
serve --packets 1 | Err(Line(MissingRequiredArgument))
udp a.scene --port | Err(Line(InvalidValue))
serve a.scene --packets | Err(Line(InvalidValue))
show a.pcap b.pcap | Err(Line(UnknownArgument))
vectors a.scene | Err(Line(UnknownArgument))
sdo s 1 2 3 0x04 5 | Err(Line(UnknownArgument))
run a.scene --port 4000 | Err(Line(UnknownArgument))
udp a.scene --packets 1 | Err(Line(UnknownArgument))
udp s --port 4000 --port 4001 | Err(Line(ArgumentConflict))
serve s --packets 1 --packets 2 | Err(Line(ArgumentConflict))";

#[test]
fn each_line_gives_its_answer(rt: HostRuntime) {
    let missing = Some(Refusal::Line(ErrorKind::MissingSubcommand));
    assert!(rt; read(rt.alloc(), &[]).err() == missing);
    for rows in [COMMANDS, CYCLES, SERVED, VALUES, ENDS, FLAGS, CALLS, COUNTS] {
        assert_rows(&rt, rt.alloc(), rows);
    }
}
