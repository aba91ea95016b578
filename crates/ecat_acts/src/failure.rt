//! Why a command ends before its output does, and how that is told.

ghost use Rattle.std.specs.Prelude.{◌≡◌, IfErr, IfOk};
ghost use Rattle.ecat_acts.specs.Exits.{IsExit, IsAskedExit, IsCaptureExit, IsImagesExit, IsLineExit};
ghost use Rattle.ecat_acts.specs.Exits.{IsRefusal, IsTaskExit};
ghost use Rattle.ecat_acts.specs.Failures.{unbound};
ghost use Rattle.ecat_acts.specs.declared.failure.Failure.TheVariants.{Line};
ghost use Rattle.ecat_setup.specs.declared.failure.LineFailure.TheVariants.{Output};
ghost use Rattle.ecat_text.specs.declared.status.TheConstants.{BAD_ARGUMENTS, FAILED, REFUSED};

use crate::raw::RawFaultText;
use ec_run::ImagesFault;
use ec_services::MasterFault;
use ecat_raw::RawFault;
use ecat_remote::OpenFault;
use ecat_scene::SceneFault;
use ecat_serve::BindFault;
use ecat_setup::LineFailure;
use ecat_source::PcapFault;
use ecat_task::TaskFault;
use ecat_text::{BAD_ARGUMENTS, FAILED, FaultText, PortText, REFUSED};
use std::io::{self, Write};

/// Why a command ends before its output does.
#[derive(Drop)]
pub enum Failure {
    /// Memory ran out for the words of the command line.
    NoMemoryForWords,
    /// The file could not be opened.
    Open,
    /// A command on the line of a scene ended.
    Line(LineFailure),
    /// The capture is damaged, or its source or memory failed.
    Capture(PcapFault),
    /// A socket could not be opened.
    Bind,
    /// Memory ran out for the sockets.
    NoMemoryForSockets,
    /// A line somewhere else could not be spoken to.
    Remote(OpenFault),
    /// What was asked of a line somewhere else has no answer.
    Asked(MasterFault),
    /// The file of a log could not be made.
    Log,
    /// The file of a capture could not be made.
    PcapOpen,
    /// The file of a capture is there, and was not to be overwritten.
    PcapExists,
    /// The file of a scene that is written could not be made.
    SceneOpen,
    /// The file of a scene that is written is there, and was not to be overwritten.
    SceneExists,
    /// The file of a scene could not be written.
    SceneWrite,
    /// The file of a master's outputs could not be opened.
    Outputs,
    /// The file of an EEPROM could not be opened.
    Eeprom,
    /// The file of an EEPROM that is written is there, and was not to be overwritten.
    EepromExists,
    /// The file of an EEPROM could not be written.
    EepromWrite,
    /// The file of a master's outputs has none.
    Images(ImagesFault),
    /// It is not said where a line lies that is somewhere else, or it is said twice.
    Reach,
    /// The ends of a line that is somewhere else are no hosts and ports.
    At,
    /// Faults are asked for with another form of a listing.
    Forms,
    /// A stream is to be judged, and no scene is named: it is read once, and its line is learned of it all.
    NeedsScene,
    /// Sums by index are asked for, and no sums.
    IndexAlone,
    /// Objects of JSON are asked for, and another form.
    TwoForms,
    /// Objects of JSON are asked for of a listing without sums.
    JsonAlone,
    /// The descriptors of packet sockets are no numbers.
    Descriptors,
    /// The state in which slaves are to be left has another name.
    State,
    /// The packet sockets are of no use.
    Raw(RawFault),
    /// The clock of a master, or the wait for its input, could not be had.
    Clock,
    /// The socket of a master's program could not be had.
    Task(TaskFault),
    /// What stale outputs of a master's program become has another name.
    Rest,
    /// Slaves are to rest in Safe-Op, and to be brought to Op again.
    RestRecovers,
    /// Both a file and a program are to give the outputs of a master.
    TwoOutputs,
    /// Lines of the input are to set the outputs of a master, and something else is to give them.
    ControlOutputs,
    /// Something is said of a master's program, and there is none.
    IoAlone,
    /// It is said how often a master tries, and it brings no slave up again.
    TriesAlone,
    /// What lines begin with has another name.
    Stamps,
    /// What is told of cycles has another name.
    Progress,
    /// A master that runs on a line is to be asked, and the line is to be reached besides.
    Through,
    /// The door of a running master is no host and port.
    Door,
    /// No running master answers.
    Unanswered,
}

impl From<LineFailure> for Failure {
    fn from(failure: LineFailure) -> Failure
        ensures { result ≡ Line failure }
    {
        Failure::Line(failure)
    }
}

impl From<io::Error> for Failure {
    fn from(_error: io::Error) -> Failure
        ensures { result ≡ Line Output }
    {
        Failure::Line(LineFailure::Output)
    }
}

/// Why a line could not be served.
pub fn unbound(fault: BindFault) -> Failure
    ensures { result ≡ unbound fault }
{
    match fault {
        BindFault::NoMemory => Failure::NoMemoryForSockets,
        BindFault::NoSuchPort | BindFault::NoSocket => Failure::Bind,
    }
}

/// Writes the line of a refusal, and answers the exit status.
pub(crate) fn refuse<W: Write, V: Write>(line: &str, out: &mut W, err: &mut V) -> u8
    ensures { IsRefusal result }
{
    match out.write_all(line.as_bytes()) {
        Ok(()) => REFUSED,
        Err(_) => report(&Failure::Line(LineFailure::Output), out, err),
    }
}

/// Writes the line of a failure, to the output where the content was refused and to `err` else, and
/// answers the exit status.
pub fn report<W: Write, V: Write>(failure: &Failure, out: &mut W, err: &mut V) -> u8
    ensures { IsExit failure.now result }
{
    match failure {
        Failure::Line(failure) => report_line(failure, out, err),
        Failure::NoMemoryForWords => failed(err, b"arguments: NoMemory\n"),
        Failure::Open => failed(err, b"file: Open\n"),
        Failure::Bind => failed(err, b"socket: Bind\n"),
        Failure::NoMemoryForSockets => failed(err, b"socket: NoMemory\n"),
        Failure::Log => failed(err, b"log: Open\n"),
        Failure::PcapOpen => failed(err, b"pcap: Open\n"),
        Failure::PcapExists => failed(err, b"pcap: Exists\n"),
        Failure::SceneOpen => failed(err, b"scene: Open\n"),
        Failure::SceneExists => failed(err, b"scene: Exists\n"),
        Failure::SceneWrite => failed(err, b"scene: Write\n"),
        Failure::Clock => failed(err, b"clock: Open\n"),
        Failure::Outputs => failed(err, b"outputs: Open\n"),
        Failure::Eeprom => failed(err, b"sii: Open\n"),
        Failure::EepromExists => failed(err, b"sii: Exists\n"),
        Failure::EepromWrite => failed(err, b"sii: Write\n"),
        Failure::Images(fault) => report_images(fault, out, err),
        Failure::Reach => bad_argument(err, b"argument: --at or --raw is wanted, one of them\n"),
        Failure::At => bad_argument(
            err,
            b"argument: --at wants HOST:PORT, or two of them with a comma between\n",
        ),
        Failure::Forms => bad_argument(
            err,
            b"argument: --faults is a form of a listing by itself\n",
        ),
        Failure::NeedsScene => bad_argument(err, b"argument: NeedsScene\n"),
        Failure::IndexAlone => bad_argument(err, b"argument: --index is of the sums of --stats\n"),
        Failure::TwoForms => bad_argument(err, b"argument: --json is a form by itself\n"),
        Failure::JsonAlone => bad_argument(
            err,
            b"argument: --json of a listing is of the sums of --stats\n",
        ),
        Failure::Descriptors => bad_argument(
            err,
            b"argument: --raw wants numbers, as 10 or 10,11\n",
        ),
        Failure::State => bad_argument(
            err,
            b"argument: --leave wants init, pre-op, safe-op or op\n",
        ),
        Failure::Through => bad_argument(
            err,
            b"argument: --through is wanted without --at, --raw, --scene and --json\n",
        ),
        Failure::Door => bad_argument(err, b"argument: --through wants HOST:PORT\n"),
        Failure::Unanswered => failed(err, b"through: NoAnswer\n"),
        Failure::Rest => bad_argument(err, b"argument: --io-rest wants kept, zeros or safe-op\n"),
        Failure::RestRecovers => bad_argument(
            err,
            b"argument: --io-rest safe-op leaves slaves in Safe-Op, and --recover brings them to Op\n",
        ),
        Failure::TwoOutputs => bad_argument(
            err,
            b"argument: --io gives the outputs, and so does --outputs\n",
        ),
        Failure::ControlOutputs => bad_argument(
            err,
            b"argument: --control sets the outputs, and --io or --outputs gives them\n",
        ),
        Failure::IoAlone => bad_argument(
            err,
            b"argument: --io-open, --io-stale and --io-rest are of --io\n",
        ),
        Failure::TriesAlone => bad_argument(err, b"argument: --tries is of --recover\n"),
        Failure::Stamps => bad_argument(err, b"argument: --clock wants utc or none\n"),
        Failure::Progress => bad_argument(
            err,
            b"argument: --progress wants screen, lines or none\n",
        ),
        Failure::Task(fault) => report_task(fault, err),
        Failure::Raw(fault) => report_raw(*fault, err),
        Failure::Remote(fault) => {
            let end = PortText(fault.end);
            let error = &fault.error;
            let _ = writeln!(err, "end {end}: {error}");
            FAILED
        }
        Failure::Asked(fault) => report_asked(*fault, out, err),
        Failure::Capture(fault) => report_capture(fault, out, err),
    }
}

/// Writes the line of a file of outputs that has none.
fn report_images<W: Write, V: Write>(fault: &ImagesFault, out: &mut W, err: &mut V) -> u8
    ensures { IsImagesExit fault.now result }
{
    match fault {
        ImagesFault::NoMemory => failed(err, b"outputs: NoMemory\n"),
        ImagesFault::TooLong | ImagesFault::Empty | ImagesFault::Line(..) => refused(
            writeln!(out, "outputs: {fault}"),
            err,
        ),
    }
}

/// Writes the line of what was asked of a line somewhere else and has no answer.
fn report_asked<W: Write, V: Write>(fault: MasterFault, out: &mut W, err: &mut V) -> u8
    ensures { IsAskedExit fault result }
{
    match fault {
        MasterFault::Port => failed(err, b"cycle: Port\n"),
        MasterFault::NoSlave
        | MasterFault::Refused(_)
        | MasterFault::Abort(_)
        | MasterFault::NoAnswer
        | MasterFault::BadAnswer
        | MasterFault::Broken
        | MasterFault::Stranger => {
            let fault = FaultText(fault);
            refused(writeln!(out, "{fault}"), err)
        }
    }
}

/// Writes the line of a capture that is damaged, or whose source or memory failed.
fn report_capture<W: Write, V: Write>(fault: &PcapFault, out: &mut W, err: &mut V) -> u8
    ensures { IsCaptureExit fault.now result }
{
    match fault {
        PcapFault::Read => failed(err, b"capture: Read\n"),
        PcapFault::NoMemory => failed(err, b"capture: NoMemory\n"),
        PcapFault::Short
        | PcapFault::NotPcap
        | PcapFault::Version
        | PcapFault::LinkType
        | PcapFault::TooLong
        | PcapFault::Failed => refused(writeln!(out, "capture: {fault}"), err),
    }
}

/// Writes the line of a socket of a master's program that could not be had.
fn report_task<V: Write>(fault: &TaskFault, err: &mut V) -> u8
    ensures { IsTaskExit fault.now result }
{
    match fault {
        TaskFault::NoMemory => failed(err, b"io: NoMemory\n"),
        TaskFault::Reachable => bad_argument(
            err,
            b"argument: --io lies where other machines reach it; --io-open lets them\n",
        ),
        TaskFault::Socket(error) => {
            let _ = writeln!(err, "io: {error}");
            FAILED
        }
    }
}

/// Writes the line of packet sockets that are of no use, and who would have opened those that are missing.
fn report_raw<V: Write>(fault: RawFault, err: &mut V) -> u8
    ensures { result ≡ FAILED }
{
    let text = RawFaultText(fault);
    let _ = writeln!(err, "raw: {text}");
    match fault {
        RawFault::NotOpen(_) | RawFault::NoPacketSocket(_) | RawFault::NotBound(_) => failed(
            err,
            b"tools/raw A [B] -- COMMAND.. opens them at interfaces, as descriptors 10 and 11\n",
        ),
        RawFault::Twice | RawFault::NotWatched | RawFault::NoMemory => FAILED,
    }
}

/// Reports what became of a file, and what the system says of it.
pub fn report_file<W: Write, V: Write>(
    failure: &Failure,
    path: &str,
    error: &io::Error,
    out: &mut W,
    err: &mut V,
) -> u8
    ensures { IsExit failure.now result }
{
    let status = report(failure, out, err);
    let _ = writeln!(err, "{path}: {error}");
    status
}

/// Writes the line of a command that ended on the line of a scene, as `report` does.
fn report_line<W: Write, V: Write>(failure: &LineFailure, out: &mut W, err: &mut V) -> u8
    ensures { IsLineExit failure.now result }
{
    match failure {
        LineFailure::Scene(SceneFault::NoMemory) | LineFailure::NoMemory => failed(
            err,
            b"scene: NoMemory\n",
        ),
        LineFailure::Read => failed(err, b"file: Read\n"),
        LineFailure::Output => failed(err, b"output: Write\n"),
        LineFailure::Port => failed(err, b"cycle: Port\n"),
        LineFailure::Scene(fault) => refused(writeln!(out, "scene: {fault}"), err),
        LineFailure::TooMany => refused(writeln!(out, "scene: TooMany"), err),
        LineFailure::Actions => refused(writeln!(out, "scene: actions"), err),
        LineFailure::Stranger => refused(writeln!(out, "cycle: Stranger"), err),
    }
}

/// The exit status of what was done; reports why where it was not.
pub fn status_of<E, W, V>(done: Result<u8, E>, out: &mut W, err: &mut V) -> u8
where
    Failure: From<E>,
    W: Write,
    V: Write,
    ensures { IfOk done (λ status. result ≡ status) }
{
    match done {
        Ok(status) => status,
        Err(failure) => report(&Failure::from(failure), out, err),
    }
}

/// Writes a line to `err` that says what is wrong with the words of the command line.
fn bad_argument<V: Write>(err: &mut V, line: &[u8]) -> u8
    ensures { result ≡ BAD_ARGUMENTS }
{
    let _ = err.write_all(line);
    BAD_ARGUMENTS
}

/// Writes a line to `err`; a fault of that is passed over.
fn failed<V: Write>(err: &mut V, line: &[u8]) -> u8
    ensures { result ≡ FAILED }
{
    let _ = err.write_all(line);
    FAILED
}

/// The status once the line of a refusal was written: that of a failure where the output took no line.
fn refused<V: Write>(written: io::Result<()>, err: &mut V) -> u8
    ensures either { IsRefusal result }
    ensures written { IfOk written (λ _. result ≡ REFUSED) }
    ensures lost { IfErr written (λ _. result ≡ FAILED) }
{
    match written {
        Ok(()) => REFUSED,
        Err(_) => failed(err, b"output: Write\n"),
    }
}
