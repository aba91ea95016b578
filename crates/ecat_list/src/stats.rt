//! What is counted of the datagrams of a capture, each group apart.

ghost use Rattle.std.specs.Prelude.{◌≡◌, ◌<◌, [], ◌∷◌, ◌++◌, List, None, OnOk, IfSome, IsTrue};
ghost use Rattle.indexmap.specs.IndexMap.{index_map_len};
ghost use Rattle.ecat_list.specs.declared.passed.Passed.{Passed};
ghost use Rattle.ecat_list.specs.declared.stats.TheConstants.{MAX_GROUPS};
ghost use Rattle.ecat_list.specs.Passed.{all_of, ended, fated, happened, seen_in};
ghost use Rattle.ecat_list.specs.Stats.{IsAt, IsStatsOf, group_of};

use crate::group::Group;
use crate::passed::{Key, Passed, Seen, What, came_in, passed_of, place_of, seen_in};
use ec_wire::FrameBuf;
use ecat_trips::{Fate, Outline, Step, Trip};
use indexmap::IndexMap;
use std::alloc::{AllocError, Global};

/// How many groups of datagrams are told apart.
const MAX_GROUPS: usize = 4096;

/// How many groups are kept where they were found last.
const RECENT: usize = 4096;

/// The groups of the datagrams that went by, in the order of their first datagrams, and how many datagrams of
/// further groups were left out.
#[derive(Drop)]
pub(crate) struct Stats {
    groups: IndexMap<Key, Group>,
    left_out: u64,
    /// Where a group was found last, by a number made of its key.
    recent: [u16; RECENT],
}

/// A number below 4,096 that is made of a key, by which keys of a capture seldom meet.
fn number_of(key: &Key) -> usize
    ensures { result < RECENT }
{
    let rest = u32::from(key.code)
        | u32::from(key.index) << 8
        | ((key.length % 65536) as u32) << 16;
    let mixed = key.address.wrapping_mul(0x9E37_79B1) ^ rest.wrapping_mul(0x85EB_CA6B);
    (mixed / 0x0010_0000) as usize
}

/// A place as a number of sixteen bits, which each place of a group is.
fn short(place: usize) -> u16 {
    (place % 65536) as u16
}

impl Stats {
    /// No datagram went by yet.
    pub(crate) fn new(alloc: Global) -> Stats
        ensures { IsStatsOf [] result }
    {
        Stats {
            groups: IndexMap::new(alloc),
            left_out: 0,
            recent: [0; RECENT],
        }
    }

    /// Takes a datagram, or counts it as left out where it is of a group past the 4,096th. Those of a cycle
    /// come again and again: so its group is looked for by its key only where it does not stand where one
    /// with such a number was found last.
    pub(crate) fn take(&mut self, passed: &Passed) -> Result<(), AllocError>
        ensures { OnOk result ((all : List Passed) → IsStatsOf all self.old
            → IsStatsOf (all ++ passed.now ∷ []) self.new) }
    {
        match self.likely_place(&passed.key) {
            Some(place) => {
                self.take_at(place, passed);
                Ok(())
            }
            None => self.take_by_key(passed),
        }
    }

    /// The place of the group of a key, if it is the one that was found last by the number of its key.
    fn likely_place(&self, key: &Key) -> Option<usize>
        ensures { IfSome result (λ place. IsAt self.now place key.now) }
    {
        let place = usize::from(self.recent[number_of(key)]);
        if self.is_at(place, key) {
            Some(place)
        } else {
            None
        }
    }

    /// Is the group of this key the one at this place?
    fn is_at(&self, place: usize, key: &Key) -> bool
        ensures { IsTrue result → IsAt self.now place key.now }
    {
        match self.groups.get_index(place) {
            Some((here, _)) => *here == *key,
            None => false,
        }
    }

    /// Takes a datagram of the group at a place.
    fn take_at(&mut self, place: usize, passed: &Passed)
        requires { IsAt self.old place passed.now.key }
        ensures { (all : List Passed) → IsStatsOf all self.old
            → IsStatsOf (all ++ passed.now ∷ []) self.new }
    {
        let (_, known) = self.groups.pair_mut(place);
        known.take(passed);
    }

    /// Takes a datagram whose group is looked for by its key.
    fn take_by_key(&mut self, passed: &Passed) -> Result<(), AllocError>
        ensures { OnOk result ((all : List Passed) → IsStatsOf all self.old
            → IsStatsOf (all ++ passed.now ∷ []) self.new) }
    {
        match self.groups.get_full(&passed.key) {
            Some((place, _, _)) => {
                self.recent[number_of(&passed.key)] = short(place);
                self.take_at(place, passed);
                Ok(())
            }
            None => self.take_new(passed),
        }
    }

    /// Takes a datagram that is of no group yet.
    fn take_new(&mut self, passed: &Passed) -> Result<(), AllocError>
        requires { group_of self.old passed.now.key ≡ None }
        ensures { OnOk result ((all : List Passed) → IsStatsOf all self.old
            → IsStatsOf (all ++ passed.now ∷ []) self.new) }
    {
        if self.groups.len() < MAX_GROUPS {
            return self.add(passed);
        }
        self.left_out = self.left_out.saturating_add(1);
        Ok(())
    }

    /// Makes a group of a datagram that is of none yet.
    fn add(&mut self, passed: &Passed) -> Result<(), AllocError>
        requires absent { group_of self.old passed.now.key ≡ None }
        requires room { index_map_len self.old.groups < MAX_GROUPS }
        ensures { OnOk result ((all : List Passed) → IsStatsOf all self.old
            → IsStatsOf (all ++ passed.now ∷ []) self.new) }
    {
        let mut group = Group::new(passed.command);
        group.take(passed);
        self.recent[number_of(&passed.key)] = short(self.groups.len());
        match self.groups.insert(passed.key, group) {
            Ok(_) => Ok(()),
            Err(_) => Err(AllocError),
        }
    }

    /// How many groups there are.
    pub(crate) fn count(&self) -> usize {
        self.groups.len()
    }

    /// The key and the group at a place, in the order of their first datagrams.
    pub(crate) fn group(&self, place: usize) -> Option<(&Key, &Group)> {
        self.groups.get_index(place)
    }

    /// How many datagrams were left out, up to 2^64 - 1: of a trip one that was sent, and one that ended.
    pub(crate) fn left_out(&self) -> u64 {
        self.left_out
    }

    /// Takes the datagrams of a frame, as it was sent and as it came.
    fn take_frame(
        &mut self,
        by_index: bool,
        seen: &Seen,
        sent: &FrameBuf,
        came: &FrameBuf,
    ) -> Result<(), AllocError>
        ensures { OnOk result ((all : List Passed) → IsStatsOf all self.old
            → IsStatsOf (all ++ all_of by_index seen.now sent.now came.now) self.new) }
    {
        let shared = sent.count().min(came.count());
        for k in 0..shared {
            self.take(&passed_of(by_index, seen, sent, came, k))?;
        }
        Ok(())
    }

    /// Takes a trip that ended.
    pub(crate) fn take_trip(&mut self, by_index: bool, trip: &Trip) -> Result<(), AllocError>
        ensures { OnOk result ((all : List Passed) → IsStatsOf all self.old
            → IsStatsOf (all ++ ended by_index trip.now) self.new) }
    {
        match &trip.came {
            Some(came) => {
                let seen = Seen {
                    what: What::Returned,
                    at: place_of(&came_in(trip)),
                    began: trip.first.time,
                };
                self.take_frame(by_index, &seen, &trip.sent.frame, came.frame())
            }
            None => {
                let seen = seen_in(What::Lost, &trip.first);
                self.take_frame(by_index, &seen, &trip.sent.frame, &trip.sent.frame)
            }
        }
    }

    /// Takes a frame of which something is seen in its packet.
    fn take_packet(
        &mut self,
        by_index: bool,
        what: What,
        packet: &Outline,
        frame: &FrameBuf,
    ) -> Result<(), AllocError>
        ensures { OnOk result ((all : List Passed) → IsStatsOf all self.old
            → IsStatsOf (all ++ all_of by_index (seen_in what packet.now) frame.now frame.now) self.new) }
    {
        let seen = seen_in(what, packet);
        self.take_frame(by_index, &seen, frame, frame)
    }

    /// Takes what became of a packet.
    fn take_fate(
        &mut self,
        by_index: bool,
        packet: &Outline,
        frame: &FrameBuf,
        fate: &Fate,
    ) -> Result<(), AllocError>
        ensures { OnOk result ((all : List Passed) → IsStatsOf all self.old
            → IsStatsOf (all ++ fated by_index packet.now frame.now fate.now) self.new) }
    {
        match fate {
            Fate::Begins => self.take_packet(by_index, What::Sent, packet, frame),
            Fate::Replaces(kept) => {
                self.take_trip(by_index, kept.trip())?;
                self.take_packet(by_index, What::Sent, packet, frame)
            }
            Fate::Second(_) | Fate::Back(_) => Ok(()),
            Fate::Closes(kept) => self.take_trip(by_index, kept.trip()),
            Fate::Late => self.take_packet(by_index, What::CameLate, packet, frame),
            Fate::Stray => self.take_packet(by_index, What::CameAstray, packet, frame),
        }
    }

    /// Takes what happened to a packet.
    pub(crate) fn take_step(
        &mut self,
        by_index: bool,
        packet: &Outline,
        frame: &FrameBuf,
        step: &Step,
    ) -> Result<(), AllocError>
        ensures { OnOk result ((all : List Passed) → IsStatsOf all self.old
            → IsStatsOf (all ++ happened by_index packet.now frame.now step.now) self.new) }
    {
        match step {
            Step::Ended(kept) => self.take_trip(by_index, kept.trip()),
            Step::Taken(_, fate) => self.take_fate(by_index, packet, frame, fate),
        }
    }
}
