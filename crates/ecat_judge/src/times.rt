//! When an item was sent, how far apart, and how soon it came back.

/// The least, the mean and the greatest of some times, in nanoseconds.
#[derive(Clone, Copy, Debug, Default, PartialEq, Eq)]
pub(crate) struct Spread {
    /// The least.
    pub least: u64,
    /// The greatest.
    pub greatest: u64,
    /// The sum, up to 2^64 - 1.
    pub sum: u64,
    /// How many they are.
    pub count: u64,
}

impl Spread {
    /// Takes one more.
    fn take(&mut self, time: u64) {
        if self.count == 0 || time < self.least {
            self.least = time;
        }
        if self.greatest < time {
            self.greatest = time;
        }
        self.sum = self.sum.saturating_add(time);
        self.count = self.count.saturating_add(1);
    }

    /// The mean; of none 0.
    pub(crate) fn mean(&self) -> u64 {
        if self.count == 0 {
            0
        } else {
            self.sum / self.count
        }
    }
}

/// A packet, by its number and its time.
#[derive(Clone, Copy, Debug, PartialEq, Eq)]
pub(crate) struct At {
    /// Its number in the capture.
    pub packet: u64,
    /// When it was captured, in nanoseconds, where the capture tells it.
    pub time: Option<u64>,
}

/// When the datagrams of an item were sent, and when they came back.
#[derive(Clone, Copy, Debug, Default, PartialEq, Eq)]
pub(crate) struct Times {
    /// The first packet in which one was sent.
    pub first: Option<At>,
    /// The last one.
    pub last: Option<At>,
    /// The times between two.
    pub every: Spread,
    /// The times from the first sent copy to the last one that came back.
    pub back: Spread,
}

/// The time from one to another, where both are known.
fn between(from: Option<u64>, to: Option<u64>) -> Option<u64> {
    let from = from?;
    let to = to?;
    Some(to.saturating_sub(from))
}

impl Times {
    /// Takes a datagram that was sent.
    pub(crate) fn send(&mut self, at: At) {
        match self.last {
            None => self.first = Some(at),
            Some(last) => match between(last.time, at.time) {
                None => {}
                Some(time) => self.every.take(time),
            },
        }
        self.last = Some(at);
    }

    /// Takes when it came back.
    pub(crate) fn come_back(&mut self, from: Option<u64>, to: Option<u64>) {
        match between(from, to) {
            None => {}
            Some(time) => self.back.take(time),
        }
    }
}
