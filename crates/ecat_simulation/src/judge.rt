//! What `--judge` prints of a cycle: which items are short, whose copies are lost, where the cable is broken.

ghost use Rattle.std.specs.Prelude.{◌≡◌, length};
ghost use Rattle.std.specs.List.{position};
ghost use Rattle.ecat_simulation.specs.Losses.{first_loss, has_lost_one};

use ec_diag::{Located, probe};
use ec_master::{CopiesBack, Ports, Report, Reporting, Verdict, Work, run_cycle};
use ec_ring::{Ring, Travel, Weather};
use ecat_setup::LineFailure;
use ecat_text::{Lines, print_break, print_counts, print_losses, print_verdict};
use std::io::{self, Write};

/// Does one cycle over ports and prints its verdict. Where it is not good, prints a line for each item that
/// did not count as wanted, and one for each frame whose copies did not both come back.
pub fn judged_cycle<P: Ports, W: Write>(
    ports: &mut Reporting<P>,
    work: &mut Work,
    expected: &[u16],
    lines: &mut Lines<'_, W>,
) -> Result<Verdict, LineFailure>
    requires { length expected.now ≡ length work.old }
{
    let verdict = run_cycle(ports, work, expected)?;
    print_verdict(verdict, lines)?;
    if verdict != Verdict::Good {
        print_counts(ports.report(), expected, lines)?;
        print_losses(ports.report(), lines)?;
    }
    Ok(verdict)
}

/// Prints where the cable is broken that a cycle with this report went over, by one more frame in the weather
/// of the first one whose copies did not both come back, or of the first of all. Where the verdict was good
/// nothing is printed of a whole cable, and of a broken one that the redundancy is lost.
pub fn print_cable<W: Write>(
    verdict: Verdict,
    report: &Report,
    ring: &mut Ring,
    weathers: &[Weather],
    lines: &mut Lines<'_, W>,
) -> io::Result<()> {
    let weather = match weathers.get(first_loss(report)) {
        Some(weather) => *weather,
        None => Weather::calm(ring.links()),
    };
    let located = located_in(ring, &weather);
    if verdict == Verdict::Good {
        if located == Located::Whole {
            return Ok(());
        }
        lines.text("redundancy lost: ")?;
    }
    print_break(located, ring.slaves(), lines)?;
    Ok(())
}

/// The number of the first frame whose copies did not both come back, or 0.
fn first_loss(report: &Report) -> usize
    ensures { result ≡ first_loss report.now.copies }
{
    first_lost(report.copies()).unwrap_or(0)
}

/// The number of the first of these frames whose copies did not both come back.
fn first_lost(frames: &[CopiesBack]) -> Option<usize>
    ensures { result ≡ position has_lost_one frames.now }
{
    frames.iter().position(|copies| has_lost_one(*copies))
}

/// Did one of the copies of a frame not come back?
fn has_lost_one(copies: CopiesBack) -> bool
    ensures { result ≡ has_lost_one copies }
{
    !copies.a || !copies.b
}

/// Where the cable is broken, by one frame that travels in this weather.
fn located_in(ring: &mut Ring, weather: &Weather) -> Located {
    let sent = probe();
    let came = ring.arrivals(&sent, weather);
    Located::Unknown.and_arrivals(ring.slaves().len(), &sent, &came)
}
