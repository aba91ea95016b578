//! What is counted and told, packet after packet.

ghost use Rattle.std.specs.Prelude.{◌<◌, length};

use crate::evidence::{Evidence, Row};
use crate::page::Page;
use crate::run::{Kind, Run};
use crate::strangers::Strangers;
use crate::sums::{Outcome, Sums};
use crate::table::{Table, empty_rows, is_logical, key_of, rows_of};
use crate::times::{At, Times};
use crate::verdict::{Counted, Standing, is_good};
use ec_map::{Item, Mapped};
use ec_wire::FrameBuf;
use ecat_trips::{Fate, Marks, Outline, Step, Trip, Trips, grown, moved, own_count};
use std::alloc::{AllocError, Global};

/// What became of the datagrams of an item, and when.
#[derive(Drop)]
struct Account {
    sums: Sums,
    times: Times,
}

/// Losses, one after the other.
#[derive(Clone, Copy)]
struct Losses {
    first: At,
    last: At,
    times: u64,
}

/// A trip that came back, and what is known of it.
#[derive(Clone, Copy)]
struct Back {
    /// The packet in which it was sent; in which it came back, where that was not captured.
    first: At,
    /// The packet in which it came back last.
    last: At,
    /// Have all copies of it come back?
    is_whole: bool,
    /// Was it captured as it was sent?
    is_sent: bool,
}

/// How many slaves a trip passed, as an ADP tells.
#[derive(Clone, Copy)]
enum Passage {
    /// None does.
    Untold,
    /// So many as the scene has, or fewer.
    Of(u16),
    /// More than the scene has.
    Beyond,
}

/// What is counted and told of a capture.
#[derive(Drop)]
pub(crate) struct Trial {
    table: Table,
    accounts: Vec<Account>,
    trips: Trips,
    run: Run,
    evidence: Evidence,
    losses: Losses,
    strangers: Strangers,
    /// Has a logical item moved yet? Trips in front of it are not judged.
    begun: bool,
    /// Was a packet captured that was sent?
    is_sent: bool,
    /// Was a trip judged of which none was?
    is_guessed: bool,
    /// The items of the trip that is taken.
    found: Vec<Counted>,
    /// Of each slave, whether a bit that it reads changed in that trip.
    seen: Vec<bool>,
    /// The slaves that were not seen in the run before that trip.
    added: Vec<usize>,
    /// The items that were not bad in the run before that trip.
    added_rows: Vec<usize>,
    /// What is written.
    pub page: Page,
}

/// No losses.
const NO_LOSSES: Losses = Losses {
    first: At {
        packet: 0,
        time: None,
    },
    last: At {
        packet: 0,
        time: None,
    },
    times: 0,
};

/// A packet by its number and its time.
fn at(packet: &Outline) -> At {
    At {
        packet: packet.number,
        time: packet.time,
    }
}

/// One flag for each slave, not set.
fn flags(alloc: Global, count: usize) -> Result<Vec<bool>, AllocError> {
    let mut flags = Vec::new(alloc);
    for _ in 0..count {
        flags.push(false)?;
    }
    Ok(flags)
}

/// An account for each item.
fn accounts_of(alloc: Global, count: usize) -> Result<Vec<Account>, AllocError> {
    let mut accounts = Vec::new(alloc);
    for _ in 0..count {
        accounts.push(Account {
            sums: Sums::default(),
            times: Times::default(),
        })?;
    }
    Ok(accounts)
}

/// Have all copies of a trip come back?
fn is_whole(trip: &Trip) -> bool {
    trip.back.is_some() && (trip.second.is_none() || trip.again.is_some())
}

/// The packet in which a trip came back last; in which it was sent, where it did not.
fn last_of(trip: &Trip) -> At {
    match trip.again {
        Some(again) => at(&again),
        None => match trip.back {
            Some(back) => at(&back),
            None => at(&trip.first),
        },
    }
}

/// A trip that came back.
fn back_of(trip: &Trip) -> Back {
    Back {
        first: at(&trip.first),
        last: last_of(trip),
        is_whole: is_whole(trip),
        is_sent: true,
    }
}

/// A frame that came back, with the counters 0 that it was sent with.
fn uncounted(frame: &FrameBuf) -> FrameBuf {
    let mut sent = frame.copy();
    for k in 0..frame.count() {
        if k < sent.count() {
            sent.set_counter(k, 0);
        }
    }
    sent
}

/// How many slaves the first datagram that counts ADP passed.
fn passage_of(sent: &FrameBuf, came: &FrameBuf, slaves: usize) -> Passage {
    let shared = sent.count().min(came.count());
    for k in 0..shared {
        if sent.command(k).counts_adp() {
            let passed = grown(sent, came, k);
            return if usize::from(passed) <= slaves {
                Passage::Of(passed)
            } else {
                Passage::Beyond
            };
        }
    }
    Passage::Untold
}

/// Does one of the counters exceed that of the line?
fn is_over(found: &[Counted]) -> bool {
    found
        .iter()
        .any(|counted| counted.standing() == Standing::Over)
}

impl Trial {
    /// Nothing is counted.
    pub(crate) fn new<M: Mapped>(
        alloc: Global,
        line: &[M],
        items: &[Item],
        two: bool,
        page: Page,
    ) -> Result<Trial, AllocError> {
        let table = Table::new(alloc, line, items, two)?;
        Trial::of(alloc, table, rows_of(alloc, line, items)?, page)
    }

    /// Nothing is counted of items of which nothing is known but the counters that they have most often.
    pub(crate) fn usual(
        alloc: Global,
        items: &[Item],
        counters: &[u16],
        page: Page,
    ) -> Result<Trial, AllocError> {
        let table = Table::usual(alloc, items, counters)?;
        let rows = empty_rows(alloc, table.entries.len())?;
        Trial::of(alloc, table, rows, page)
    }

    /// Nothing is counted of the items of a table, whose rows these are.
    fn of(alloc: Global, table: Table, rows: Vec<Row>, page: Page) -> Result<Trial, AllocError> {
        let items = table.entries.len();
        let slaves = table.stations.len();
        Ok(Trial {
            accounts: accounts_of(alloc, items)?,
            trips: Trips::new(alloc)?,
            run: Run::new(alloc, items)?,
            evidence: Evidence {
                rows,
                passed: flags(alloc, slaves)?,
                gone: None,
            },
            losses: NO_LOSSES,
            strangers: Strangers::new(alloc),
            begun: false,
            is_sent: false,
            is_guessed: false,
            found: Vec::new(alloc),
            seen: flags(alloc, slaves)?,
            added: Vec::new(alloc),
            added_rows: Vec::new(alloc),
            page,
            table,
        })
    }

    /// Takes a packet with a frame.
    pub(crate) fn take(
        &mut self,
        marks: &Marks,
        packet: &Outline,
        frame: &FrameBuf,
    ) -> Result<(), AllocError> {
        self.page.look(packet.time);
        for _ in 0..u64::MAX {
            let step = self.trips.take(marks, packet, frame)?;
            let is_taken = self.take_step(marks, packet, frame, &step)?;
            self.trips.reuse(step);
            if is_taken {
                break;
            }
        }
        Ok(())
    }

    /// Takes what happens; is the packet taken?
    fn take_step(
        &mut self,
        marks: &Marks,
        packet: &Outline,
        frame: &FrameBuf,
        step: &Step,
    ) -> Result<bool, AllocError> {
        match step {
            Step::Ended(kept) => {
                self.take_trip(kept.trip())?;
                Ok(false)
            }
            Step::Taken(_, fate) => {
                self.take_fate(marks, packet, frame, fate)?;
                Ok(true)
            }
        }
    }

    /// Takes what becomes of a packet.
    fn take_fate(
        &mut self,
        marks: &Marks,
        packet: &Outline,
        frame: &FrameBuf,
        fate: &Fate,
    ) -> Result<(), AllocError> {
        match fate {
            Fate::Replaces(kept) => {
                self.is_sent = true;
                self.take_trip(kept.trip())
            }
            Fate::Closes(kept) => self.take_trip(kept.trip()),
            Fate::Begins | Fate::Second(_) => {
                self.is_sent = true;
                Ok(())
            }
            Fate::Back(_) => Ok(()),
            Fate::Late => {
                self.take_unpaired(frame);
                Ok(())
            }
            Fate::Stray => self.take_stray(marks, packet, frame),
        }
    }

    /// Takes a frame that came back of no trip. Where nothing was captured yet that was sent, it is one that
    /// was sent with the counters 0; of a master with two ports each copy would have a part of them.
    fn take_stray(
        &mut self,
        marks: &Marks,
        packet: &Outline,
        frame: &FrameBuf,
    ) -> Result<(), AllocError> {
        if self.is_sent || marks.two {
            self.take_unpaired(frame);
            return self.take_strangers(frame);
        }
        self.is_guessed = true;
        let back = Back {
            first: at(packet),
            last: at(packet),
            is_whole: true,
            is_sent: false,
        };
        self.take_back(&back, &uncounted(frame), frame)
    }

    /// Takes the datagrams of a frame that no item asks for, but for the one that carries its number.
    fn take_strangers(&mut self, frame: &FrameBuf) -> Result<(), AllocError> {
        for k in 0..own_count(frame) {
            let key = key_of(frame, k);
            if self.table.item_of(key).is_none() {
                self.strangers.take(key)?;
            }
        }
        Ok(())
    }

    /// Takes the items of a frame that came back of no trip.
    fn take_unpaired(&mut self, frame: &FrameBuf) {
        for k in 0..frame.count() {
            if let Some(item) = self.table.item_of(key_of(frame, k))
                && let Some(account) = self.accounts.get_mut(item)
            {
                account.sums.count(Outcome::Unpaired);
            }
        }
    }

    /// Takes a trip that ended.
    fn take_trip(&mut self, trip: &Trip) -> Result<(), AllocError> {
        match &trip.came {
            Some(came) => self.take_back(&back_of(trip), &trip.sent.frame, came.frame()),
            None => self.take_lost(trip),
        }
    }

    // ---- trips that were lost, or are on the way

    /// Counts each item of a frame that did not come back; are there any?
    fn count_gone(&mut self, trip: &Trip, outcome: Outcome) -> bool {
        let sent = &trip.sent.frame;
        let mut some = false;
        for k in 0..sent.count() {
            if let Some(item) = self.table.item_of(key_of(sent, k))
                && let Some(account) = self.accounts.get_mut(item)
            {
                account.sums.count(outcome);
                account.times.send(at(&trip.first));
                some = true;
            }
        }
        some
    }

    /// Takes a trip that was lost.
    fn take_lost(&mut self, trip: &Trip) -> Result<(), AllocError> {
        if self.begun && self.count_gone(trip, Outcome::Lost) {
            let here = at(&trip.first);
            if self.losses.times == 0 {
                self.losses.first = here;
            }
            self.losses.last = here;
            self.losses.times = self.losses.times.saturating_add(1);
        }
        Ok(())
    }

    /// Tells the losses that came one after the other, if there are any.
    fn end_losses(&mut self) -> Result<(), AllocError> {
        let losses = self.losses;
        if losses.times == 0 {
            return Ok(());
        }
        self.losses = NO_LOSSES;
        self.page
            .put_losses(losses.first, losses.last, losses.times)
    }

    // ---- trips that came back

    /// Finds the items of a trip and their counters, and counts what no item asks for, but for the number of
    /// the frame.
    fn find(&mut self, sent: &FrameBuf, came: &FrameBuf) -> Result<(), AllocError> {
        self.found.clear();
        let shared = own_count(sent).min(came.count());
        for k in 0..shared {
            let key = key_of(sent, k);
            match self.table.item_of(key) {
                Some(item) => self.find_at(item, moved(sent, came, k))?,
                None => self.strangers.take(key)?,
            }
        }
        Ok(())
    }

    /// Takes how far the counter of an item moved.
    fn find_at(&mut self, item: usize, moved: u16) -> Result<(), AllocError> {
        if let Some(entry) = self.table.entries.get(item) {
            self.found.push(Counted {
                item,
                moved,
                expected: entry.expected,
            })?;
        }
        Ok(())
    }

    /// Has a logical item of the trip moved? Where the scene has none, has the trip an item?
    fn begins(&self) -> bool {
        for counted in self.found.as_slice() {
            if !self.table.logical {
                return true;
            }
            if let Some(entry) = self.table.entries.get(counted.item)
                && is_logical(entry.key.command)
                && 0 < counted.moved
            {
                return true;
            }
        }
        false
    }

    /// Takes a trip that came back.
    fn take_back(
        &mut self,
        back: &Back,
        sent: &FrameBuf,
        came: &FrameBuf,
    ) -> Result<(), AllocError> {
        self.find(sent, came)?;
        if self.found.is_empty() {
            return Ok(());
        }
        self.begun = self.begun || self.begins();
        if !self.begun {
            return Ok(());
        }
        self.end_losses()?;
        self.count_found(back);
        if !self.run.agrees(self.found.as_slice()) {
            self.end_run()?;
        }
        if is_good(self.found.as_slice()) {
            self.run.take(self.found.as_slice());
            Ok(())
        } else {
            self.take_bad(back, sent, came)
        }
    }

    /// Counts the items of a trip that came back.
    fn count_found(&mut self, back: &Back) {
        for counted in self.found.as_slice() {
            if let Some(account) = self.accounts.get_mut(counted.item) {
                let outcome = match counted.standing() {
                    Standing::Good => Outcome::Good,
                    Standing::Short => Outcome::Short,
                    Standing::Over => Outcome::Over,
                };
                account.sums.count(outcome);
                account.times.send(back.first);
                if back.is_sent {
                    account.times.come_back(back.first.time, back.last.time);
                }
            }
        }
    }

    /// Takes a trip that was not good.
    fn take_bad(
        &mut self,
        back: &Back,
        sent: &FrameBuf,
        came: &FrameBuf,
    ) -> Result<(), AllocError> {
        let slaves = self.table.stations.len();
        let passage = if back.is_whole && back.is_sent && self.table.is_known {
            passage_of(sent, came, slaves)
        } else {
            Passage::Untold
        };
        let (kind, grown) = match passage {
            Passage::Untold => (Kind::Missing, None),
            Passage::Of(passed) => (Kind::Missing, Some(passed)),
            Passage::Beyond => (Kind::More, None),
        };
        let kind = if !back.is_whole {
            Kind::Alone
        } else if is_over(self.found.as_slice()) {
            Kind::More
        } else {
            kind
        };
        if !self.run.is_of(kind, grown) {
            self.end_run()?;
        }
        if kind == Kind::Missing {
            self.look(sent, came);
            self.weigh(grown)?;
        }
        self.run.take(self.found.as_slice());
        self.run.take_bad(back.first, back.last, kind, grown);
        Ok(())
    }

    // ---- what was missing

    /// Marks the slaves of which a bit that they read changed in a trip.
    fn look(&mut self, sent: &FrameBuf, came: &FrameBuf) {
        for seen in self.seen.iter_mut() {
            *seen = false;
        }
        let shared = sent.count().min(came.count());
        for k in 0..shared {
            self.look_at(sent, came, k);
        }
    }

    /// Marks those that datagram `k` tells.
    fn look_at(&mut self, sent: &FrameBuf, came: &FrameBuf, k: usize)
        requires sent { k < length sent.now }
        requires came { k < length came.now }
    {
        let Some(item) = self.table.item_of(key_of(sent, k)) else {
            return;
        };
        let Some(entry) = self.table.entries.get(item) else {
            return;
        };
        let before = sent.data(k);
        let after = came.data(k);
        for window in entry.windows.as_slice() {
            if let Some(before) = before.get(window.byte)
                && let Some(after) = after.get(window.byte)
                && window.has_changed(*before, *after)
                && let Some(seen) = self.seen.get_mut(window.slave)
            {
                *seen = true;
            }
        }
    }

    /// Adds what a bad trip tells to what the run tells. Where nothing fits to both any more, the run ends
    /// and another one begins.
    fn weigh(&mut self, grown: Option<u16>) -> Result<(), AllocError> {
        let slaves = self.table.stations.len() as u64;
        let before = self.evidence.gone;
        let now = grown.map(|grown| slaves.saturating_sub(u64::from(grown)).min(65_535) as u16);
        self.added.clear();
        self.added_rows.clear();
        if now.is_some() {
            self.evidence.gone = now;
        }
        self.add_seen()?;
        self.add_rows()?;
        if before == self.evidence.gone && self.added.is_empty() && self.added_rows.is_empty() {
            return Ok(());
        }
        let is_explained = self.evidence.is_explained(&self.table.candidates);
        if !is_explained && self.run.is_explained && 0 < self.run.times {
            self.undo(before);
            self.end_run()?;
            self.evidence.gone = now;
            self.add_seen()?;
            self.add_rows()?;
            self.run.is_explained = self.evidence.is_explained(&self.table.candidates);
        } else {
            self.run.is_explained = is_explained;
        }
        Ok(())
    }

    /// Adds the slaves that were seen.
    fn add_seen(&mut self) -> Result<(), AllocError> {
        for place in 0..self.seen.len() {
            if self.is_seen(place)
                && let Some(passed) = self.evidence.passed.get_mut(place)
                && !*passed
            {
                *passed = true;
                self.added.push(place)?;
            }
        }
        Ok(())
    }

    /// Was the slave at a place seen?
    fn is_seen(&self, place: usize) -> bool {
        match self.seen.get(place) {
            Some(seen) => *seen,
            None => false,
        }
    }

    /// Adds how far the items are short.
    fn add_rows(&mut self) -> Result<(), AllocError> {
        for counted in self.found.as_slice() {
            if let Some(row) = self.evidence.rows.get_mut(counted.item)
                && row.short.is_none()
            {
                row.short = Some(counted.short());
                self.added_rows.push(counted.item)?;
            }
        }
        Ok(())
    }

    /// Takes back what was added.
    fn undo(&mut self, gone: Option<u16>) {
        self.evidence.gone = gone;
        for place in self.added.as_slice() {
            if let Some(passed) = self.evidence.passed.get_mut(*place) {
                *passed = false;
            }
        }
        for item in self.added_rows.as_slice() {
            if let Some(row) = self.evidence.rows.get_mut(*item) {
                row.short = None;
            }
        }
    }

    // ---- the end of a run, and of all

    /// Tells the run, if some of its trips were bad, and begins another one.
    fn end_run(&mut self) -> Result<(), AllocError> {
        if 0 < self.run.times {
            self.page.put_run(&self.run, &self.table, &self.evidence)?;
        }
        self.run.clear();
        self.forget();
        Ok(())
    }

    /// Forgets what the run told.
    fn forget(&mut self) {
        self.evidence.gone = None;
        for passed in self.evidence.passed.iter_mut() {
            *passed = false;
        }
        for row in self.evidence.rows.iter_mut() {
            row.short = None;
        }
    }

    /// Counts the trips that are on the way.
    fn take_on_the_way(&mut self) {
        let count = self.trips.on_the_way();
        for i in 0..count {
            self.take_one_on_the_way(count - 1 - i);
        }
    }

    /// Counts the trip that is on the way at a place.
    fn take_one_on_the_way(&mut self, place: usize) {
        let Some(kept) = self.trips.trips().get(place) else {
            return;
        };
        let trip = kept.trip();
        let sent = &trip.sent.frame;
        for k in 0..sent.count() {
            if let Some(item) = self.table.item_of(key_of(sent, k))
                && let Some(account) = self.accounts.get_mut(item)
            {
                account.sums.count(Outcome::OnTheWay);
                account.times.send(at(&trip.first));
            }
        }
    }

    /// The capture has ended: tells the run and the losses, and the sums.
    pub(crate) fn end(&mut self) -> Result<(), AllocError> {
        self.end_run()?;
        self.end_losses()?;
        if self.begun {
            self.take_on_the_way();
        }
        if !self.page.csv {
            self.put_sums()?;
            self.page.put_guess(self.is_guessed && !self.is_sent)?;
            self.page
                .put_strangers(&self.strangers, self.table.is_known)?;
        }
        self.page.put_rest()
    }

    /// Puts the sums of each item.
    fn put_sums(&mut self) -> Result<(), AllocError> {
        for item in 0..self.table.entries.len() {
            if let Some(entry) = self.table.entries.get(item)
                && let Some(account) = self.accounts.get(item)
            {
                self.page
                    .put_sums(item, entry, &account.sums, &account.times)?;
            }
        }
        Ok(())
    }

    /// Was no datagram of an item judged, and none lost?
    pub(crate) fn is_empty(&self) -> bool {
        self.accounts.iter().all(|account| account.sums.sent == 0 && account.sums.unpaired == 0)
    }

    /// Did all items come back, with the counters that the line gives?
    pub(crate) fn is_good(&self) -> bool {
        self.accounts.iter().all(|account| account.sums.is_good())
    }
}
