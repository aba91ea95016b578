//! A control task at a UDP socket.

ghost use Rattle.std.specs.Prelude.{◌≡◌, ◌||◌, true};
ghost use Rattle.std.specs.Option.{option_map};
ghost use Rattle.ec_io.specs.Cycle.{IsSpellable};
ghost use Rattle.ecat_task.specs.Held.{Become, orders_others};

use crate::counts::Counts;
use crate::desk::{Desk, MOST_REPLIES, Questioned, Taking};
use crate::held::{Held, Refused};
use crate::resting::Resting;
use crate::told::report_of;
use ec_acyclic::Answer;
use ec_io::{MAX_TEXT, ORDER_HEAD, PacketFault, QUESTION_HEAD, Question, REPORT_HEAD};
use ec_master::Verdict;
use ec_run::{Inputs, MOST_INPUTS, put_inputs};
use ec_services::MasterFault;
use ecat_master::{Asked, Report, Task};
use ecat_text::Lines;
use std::alloc::{AllocError, Global};
use std::io::{self, Write};
use std::net::{Net, SocketAddr, UdpSocket};

/// How many packets are taken between two cycles at the most, so that nobody who sends more can hold one.
const MOST_PACKETS: usize = 64;

/// What outputs become where no order comes any more.
#[derive(Clone, Copy, PartialEq, Eq, Debug)]
pub enum Rest {
    /// They stay as they are.
    Kept,
    /// They are all 0.
    Zeros,
    /// They are all 0, and all slaves are asked for Safe-Op; once an order comes, for Op again.
    SafeOp,
}

/// What a task may order, and what becomes of outputs where it does not.
#[derive(Clone, Copy)]
pub struct Terms {
    /// How many bytes of outputs there are: those of the items that write.
    pub count: usize,
    /// After how many cycles without an order they are stale; never where it is nothing.
    pub stale_after: Option<u32>,
    /// What they become then.
    pub rest: Rest,
    /// Whether the socket may lie at an address that others than this machine reach.
    pub is_open: bool,
}

/// Why the socket of a task cannot be had.
#[derive(Drop)]
pub enum TaskFault {
    /// Memory ran out.
    NoMemory,
    /// The address is one that other machines reach, and is not to be.
    Reachable,
    /// What the system says.
    Socket(io::Error),
}

impl From<AllocError> for TaskFault {
    fn from(_fault: AllocError) -> TaskFault {
        TaskFault::NoMemory
    }
}

impl From<io::Error> for TaskFault {
    fn from(fault: io::Error) -> TaskFault {
        TaskFault::Socket(fault)
    }
}

/// The task of a program that speaks at a UDP socket; or no task, where there is no socket.
///
/// Who sent the last order is told of each cycle, and nobody is before the first one. Of the packets that
/// came between two cycles, 64 at the most are taken, and the last order counts. Questions come there too, of
/// anybody: no outputs are others by one, and who sent the last order is told of each cycle all the same.
#[derive(Drop)]
pub struct UdpTask {
    socket: Option<UdpSocket>,
    /// Who sent the last order.
    program: Option<SocketAddr>,
    held: Held,
    /// The slaves that rest while outputs are stale.
    resting: Resting,
    /// Room for a packet that comes, with a byte more than an order or a question has.
    room: Vec<u8>,
    /// Room for a packet that goes.
    packet: Vec<u8>,
    inputs: Box<Inputs>,
    /// The number of the last good cycle.
    good: Option<u64>,
    /// The number of the last cycle that was reported.
    reported: Option<u64>,
    /// The questions that come.
    desk: Desk,
    counts: Counts,
}

impl UdpTask {
    /// No task.
    pub fn none(alloc: Global) -> Result<UdpTask, AllocError> {
        let terms = Terms {
            count: 0,
            stale_after: None,
            rest: Rest::Kept,
            is_open: false,
        };
        UdpTask::at(alloc, None, terms, Vec::new(alloc))
    }

    /// The task of who speaks at this address (`HOST:PORT`), on these terms, over a line of slaves with these
    /// station addresses, which are in Op.
    pub fn open(
        net: &impl Net,
        alloc: Global,
        address: &str,
        terms: Terms,
        stations: Vec<u16>,
    ) -> Result<UdpTask, TaskFault> {
        let socket = UdpSocket::bind(net, address)?;
        socket.set_nonblocking(true)?;
        if !terms.is_open && !socket.local_addr()?.ip().is_loopback() {
            return Err(TaskFault::Reachable);
        }
        Ok(UdpTask::at(alloc, Some(socket), terms, stations)?)
    }

    /// The task at a socket, or none.
    #[inline(never)]
    fn at(
        alloc: Global,
        socket: Option<UdpSocket>,
        terms: Terms,
        stations: Vec<u16>,
    ) -> Result<UdpTask, AllocError> {
        let rest = match terms.rest {
            Rest::Kept => None,
            Rest::Zeros | Rest::SafeOp => Some(zeros(alloc, terms.count)?),
        };
        let stations = match terms.rest {
            Rest::Kept | Rest::Zeros => Vec::new(alloc),
            Rest::SafeOp => stations,
        };
        let desk = Desk::of(alloc, socket.is_some())?;
        let held = Held::new(zeros(alloc, terms.count)?, rest, terms.stale_after);
        let room = if socket.is_some() { MOST_INPUTS } else { 0 };
        Ok(UdpTask {
            socket,
            program: None,
            held,
            resting: Resting::of(stations),
            room: zeros(alloc, packet_room(terms.count))?,
            packet: zeros(alloc, REPORT_HEAD + room)?,
            inputs: Box::new(alloc, Inputs::new())?,
            good: None,
            reported: None,
            desk,
            counts: Counts::none(),
        })
    }

    /// Where the socket lies, if there is one.
    pub fn address(&self) -> Option<SocketAddr> {
        match &self.socket {
            Some(socket) => socket.local_addr().ok(),
            None => None,
        }
    }

    /// Writes how often the task spoke, if there is one.
    pub fn put_sum<W: Write>(&self, lines: &mut Lines<'_, W>) -> io::Result<()> {
        match &self.socket {
            Some(_) => self.counts.put(lines),
            None => Ok(()),
        }
    }

    /// Receives a packet, if one waits: how many bytes of it, and of whom.
    fn receive(&mut self) -> Option<(usize, SocketAddr)>
        ensures { self.new.held ≡ self.old.held }
    {
        match &self.socket {
            Some(socket) => socket.recv_from(self.room.as_mut_slice()).ok(),
            None => None,
        }
    }

    /// Takes a packet that waits, if one does; it says whether it is an order, and whether the outputs are
    /// those that it orders now.
    fn take_next(&mut self) -> Option<Result<bool, Refused>>
        ensures outputs { Become (option_map (λ rest. rest.items) self.old.held.rest)
            self.old.held.outputs.items (orders_others result) self.new.held.outputs.items }
        ensures rest { self.new.held.rest ≡ self.old.held.rest }
    {
        let (count, from) = self.receive()?;
        let taken = self.held.take(self.room.get(..count).unwrap_or(&[]));
        match taken {
            Ok(_) => {
                self.program = Some(from);
                let is_prompt = self.reported.is_some() && self.held.seen() == self.reported;
                self.counts = self.counts.with_order(is_prompt);
            }
            Err(why) => self.take_other(why, count, from),
        }
        Some(taken)
    }

    /// Takes a packet of so many bytes that is no order to be taken: a question, or one that is refused.
    fn take_other(&mut self, why: Refused, count: usize, from: SocketAddr)
        ensures { self.new.held ≡ self.old.held }
    {
        match why {
            Refused::Packet(PacketFault::OtherKind(_)) => self.take_question(count, from),
            Refused::Packet(_) | Refused::Outputs(_) => {
                self.counts = self.counts.with_refused(why);
            }
        }
    }

    /// Takes a packet of so many bytes that is of another kind, if it is a question: it waits then, or is
    /// answered at once, if its answer is kept or another one is under way.
    fn take_question(&mut self, count: usize, from: SocketAddr)
        ensures { self.new.held ≡ self.old.held }
    {
        let (number, taking) = match Question::read(self.room.get(..count).unwrap_or(&[])) {
            Ok(question) => (question.number, self.desk.take(&question, from)),
            Err(fault) => {
                self.counts = self.counts.with_refused(Refused::Packet(fault));
                return;
            }
        };
        self.counts = self.counts.with_question(taking);
        let size = match taking {
            Taking::New | Taking::UnderWay => return,
            Taking::Again => self.desk.write_again(number, from),
            Taking::Busy => self.desk.write_busy(number),
        };
        if let Some(size) = size {
            self.send_reply(size, from);
        }
    }

    /// Sends the reply of so many bytes that was written, if the system takes it at once: who asked asks once
    /// more where it is lost.
    fn send_reply(&self, size: usize, to: SocketAddr) {
        if let Some(socket) = &self.socket {
            let _ = socket.send_to(self.desk.packet(size), to);
        }
    }

    /// Takes the packets that wait, up to so many, and says whether one was an order, and whether the outputs
    /// are others now.
    fn take_all(&mut self) -> Orders
        ensures outputs { Become (option_map (λ rest. rest.items) self.old.held.rest)
            self.old.held.outputs.items result.are_others self.new.held.outputs.items }
        ensures rest { self.new.held.rest ≡ self.old.held.rest }
    {
        let mut orders = Orders {
            is_ordered: false,
            are_others: false,
        };
        for _packet in 0..MOST_PACKETS {
            match self.take_next() {
                Some(Ok(are_others)) => orders = orders.with(are_others),
                Some(Err(_)) => {}
                None => break,
            }
        }
        orders
    }
}

/// What packets ordered.
#[derive(Clone, Copy)]
struct Orders {
    /// Whether one of them was an order.
    is_ordered: bool,
    /// Whether the outputs are others by them.
    are_others: bool,
}

impl Orders {
    /// With an order more, which has outputs or has none.
    fn with(self, are_others: bool) -> Orders
        ensures { result ≡ record { is_ordered = true; are_others = self.are_others || are_others } }
    {
        Orders {
            is_ordered: true,
            are_others: self.are_others || are_others,
        }
    }
}

impl Task for UdpTask {
    ghost listens = { λ before are_others later. Become (option_map (λ rest. rest.items) before.held.rest)
        before.held.outputs.items are_others later.held.outputs.items };

    ghost held = { λ task. task.held.outputs.items };

    fn listen(&mut self) -> bool {
        let orders = self.take_all();
        let rests = self.held.begin_cycle(orders.is_ordered);
        self.resting.follow(self.held.is_stale());
        orders.are_others || rests
    }

    fn outputs(&self) -> &[u8] {
        self.held.outputs()
    }

    fn ask(&mut self) -> Option<Asked> {
        self.resting.ask()
    }

    fn told(&mut self, answer: Result<Answer, MasterFault>) {
        self.resting.take(&answer);
    }

    fn report(&mut self, report: &Report<'_>) {
        if report.ended == Ok(Verdict::Good) {
            self.good = Some(report.cycle);
        }
        self.reported = Some(report.cycle);
        if self.socket.is_some() && self.held.is_stale() {
            self.counts = self.counts.with_stale();
        }
        self.send(report);
    }
}

impl Questioned for UdpTask {
    fn question(&mut self, into: &mut [u8; MAX_TEXT]) -> Option<usize> {
        self.desk.question(into)
    }

    fn reply(&mut self, text: &[u8]) -> bool {
        for _reply in 0..MOST_REPLIES {
            match self.desk.write_next(text) {
                Some((size, to)) => self.send_reply(size, to),
                None => break,
            }
        }
        self.desk.is_free()
    }
}

impl UdpTask {
    /// The number of the last good cycle, as a packet can tell it.
    fn good_cycle(&self) -> Option<u64>
        ensures { IsSpellable result }
    {
        match self.good {
            Some(cycle) => ec_io::cycle_of(cycle),
            None => None,
        }
    }

    /// Sends who ordered last what a cycle came to; nothing where nobody did.
    fn send(&mut self, report: &Report<'_>)
        ensures { self.new.held ≡ self.old.held }
    {
        if self.program.is_none() {
            return;
        }
        let size = self.write(report);
        if !self.is_sent(size) {
            self.counts = self.counts.with_unsent();
        }
    }

    /// Writes the packet that tells what a cycle came to, and says how many bytes it has.
    fn write(&mut self, report: &Report<'_>) -> Option<usize>
        ensures { self.new.held ≡ self.old.held }
    {
        if let Some(image) = report.image {
            put_inputs(image, report.items, &mut self.inputs);
        }
        let good = self.good_cycle();
        let is_stale = self.held.is_stale();
        let told = report_of(report, good, self.inputs.as_slice(), is_stale);
        told.write(self.packet.as_mut_slice()).ok()
    }

    /// Sends so many bytes of the packet to who ordered last, if the system takes them at once.
    fn is_sent(&self, size: Option<usize>) -> bool {
        match (&self.socket, self.program, size) {
            (Some(socket), Some(program), Some(size)) => socket
                .send_to(self.packet.get(..size).unwrap_or(&[]), program)
                .is_ok(),
            _ => false,
        }
    }
}

/// Room for an order of so many bytes of outputs, or for a question, with a byte more.
fn packet_room(count: usize) -> usize {
    count
        .saturating_add(ORDER_HEAD)
        .max(QUESTION_HEAD + MAX_TEXT)
        .saturating_add(1)
}

/// So many bytes of 0.
fn zeros(alloc: Global, count: usize) -> Result<Vec<u8>, AllocError> {
    vec![in alloc; 0; count]
}
