//! The cycle whose frames go out, and up to when its trips wait.

ghost use Rattle.std.specs.Prelude.{◌≡◌, ◌+◌, ◌≤◌, ◌^◌, length, min, IfSome, None, Some};
ghost use Rattle.ecat_remote.specs.Waiting.{again_of, bounded, deadline_after, until_of};

/// What is known of the cycle whose next frame goes out, or behind which others do.
#[derive(Clone, Copy)]
pub(crate) struct Cycle {
    /// How many of its datagrams have gone out; `None` between cycles.
    pub(crate) gone: Option<usize>,
    /// Up to when its trips wait at the latest, and how long those wait behind it whose copies go out later.
    pub(crate) deadline: Option<Deadline>,
}

/// Up to when the trips of a cycle wait.
#[derive(Clone, Copy)]
pub(crate) struct Deadline {
    /// The time.
    pub(crate) at: u64,
    /// For how many microseconds a trip behind the cycle waits at the most, once that time is over.
    pub(crate) grace: u64,
}

impl Deadline {
    /// That of a cycle that begins then and whose trips may wait for so many microseconds: a trip that goes
    /// out past it waits half as long at the most.
    pub(crate) fn after(now: u64, left: u64) -> Deadline
        ensures { result ≡ deadline_after now left }
    {
        Deadline {
            at: now.saturating_add(left),
            grace: left / 2,
        }
    }

    /// Up to when a trip waits that went out then and would wait up to a time, in the cycle or behind it.
    fn bounds(self, is_cycle: bool, sent_at: u64, until: u64) -> u64
        ensures { result ≡ bounded self is_cycle sent_at until }
    {
        let end = if is_cycle || sent_at < self.at {
            self.at
        } else {
            sent_at.saturating_add(self.grace)
        };
        until.min(end)
    }
}

impl Cycle {
    /// None: what goes out is no cycle's frame.
    pub(crate) fn none() -> Cycle
        ensures { result ≡ record { gone = None; deadline = None } }
    {
        Cycle {
            gone: None,
            deadline: None,
        }
    }

    /// One that begins, with a deadline or without.
    pub(crate) fn begun(deadline: Option<Deadline>) -> Cycle
        ensures { result ≡ record { gone = Some 0; deadline = deadline } }
    {
        Cycle {
            gone: Some(0),
            deadline,
        }
    }

    /// Behind a frame of so many datagrams.
    pub(crate) fn behind(self, count: usize) -> Cycle
        ensures deadline { result.deadline ≡ self.deadline }
    {
        Cycle {
            gone: self.gone.map(|gone| gone.saturating_add(count)),
            deadline: self.deadline,
        }
    }

    /// Over: what goes out now is none of its frames.
    pub(crate) fn over(self) -> Cycle
        ensures { result ≡ record self { gone = None } }
    {
        Cycle {
            gone: None,
            deadline: self.deadline,
        }
    }

    /// Up to when a trip waits whose copies were sent at this time. One behind a cycle waits no longer than
    /// the cycle could, and where it went out later, for the grace of the deadline.
    pub(crate) fn until(self, limit: u64, sent_at: u64) -> u64
        ensures { result ≡ until_of self limit sent_at }
    {
        let until = sent_at.saturating_add(limit);
        match self.deadline {
            Some(deadline) => deadline.bounds(self.gone.is_some(), sent_at, until),
            None => until,
        }
    }
}

/// Up to when the other copy is waited for behind one that came now: as long again as this one took since it
/// was sent, and at least for so long.
pub(crate) fn again(least: u64, sent_at: u64, now: u64) -> u64
    ensures { result ≡ again_of least sent_at now }
{
    now.saturating_add(now.saturating_sub(sent_at).max(least))
}
