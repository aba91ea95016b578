//! How many of some times fall in each bucket, in memory that does not grow with them.
ghost use Rattle.std.specs.Prelude.{◌≡◌, ◌<◌, ◌≤◌, [], ◌∷◌, ◌++◌, List, ℕ, length};
ghost use Rattle.ecat_list.specs.Histogram.{IsHistogram, bucket_of, last_of, upper_of};

/// How many buckets there are: those of times up to 2^40 nanoseconds, in eight steps for each power of two.
pub(crate) const BUCKETS: usize = 304;

/// How many of some times, in nanoseconds, fall in each bucket, up to 2^64 - 1.
#[derive(Drop)]
pub(crate) struct Histogram {
    counts: [u64; BUCKETS],
}

impl Histogram {
    /// Of no time.
    pub(crate) fn new() -> Histogram
        ensures { IsHistogram [] result.counts }
    {
        Histogram {
            counts: [0; BUCKETS],
        }
    }

    /// Takes a time.
    pub(crate) fn take(&mut self, time: u64)
        ensures { (all : List ℕ) → IsHistogram all self.old.counts
            → IsHistogram (all ++ time ∷ []) self.new.counts }
    {
        let bucket = bucket_of(time);
        self.counts[bucket] = self.counts[bucket].saturating_add(1);
    }

    /// How many there are in each bucket.
    pub(crate) fn counts(&self) -> &[u64]
        ensures { result.now ≡ self.now.counts }
    {
        &self.counts
    }
}

/// The bucket of a time.
#[tactic(auto, unfolding(crate::specs::Histogram::bucket_of))]
fn bucket_of(time: u64) -> usize
    ensures value { result ≡ bucket_of time }
    ensures within { result < BUCKETS }
{
    let halvings = 60u32.saturating_sub(time.leading_zeros());
    let bucket = (8 * u64::from(halvings)).saturating_add(time >> halvings);
    bucket.min(BUCKETS as u64 - 1) as usize
}

/// The greatest time of a bucket but the last.
#[tactic(auto, unfolding(crate::specs::Histogram::upper_of))]
pub(crate) fn upper_of(bucket: usize) -> u64
    requires { bucket < BUCKETS }
    ensures { result ≡ upper_of bucket }
{
    if bucket < 16 {
        return bucket as u64;
    }
    ((bucket % 8 + 9) as u64) * 2u64.pow((bucket / 8 - 1) as u32) - 1
}

/// The first bucket behind which no more times are left than may be, of so many that are left in all.
pub(crate) fn last_of(may: u64, left: u64, counts: &[u64]) -> usize
    ensures { result ≡ last_of may left counts.now }
{
    let mut left = left;
    for k in 0..counts.len() {
        left = left.saturating_sub(counts[k]);
        if left <= may {
            return k;
        }
    }
    counts.len()
}
