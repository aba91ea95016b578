//! How patient the writers of a master are, and how many lines they left out.

use ecat_master::Pace;
use std::cell::Cell;
use std::io::Write;

/// A pace during whose cycles the writers of a master are not patient; before them and behind them they are.
#[derive(Drop)]
pub struct Impatient<'a, T> {
    pace: T,
    is_patient: &'a Cell<bool>,
}

impl<'a, T: Pace> Impatient<'a, T> {
    /// This pace, for the writers that look there how patient they are.
    pub fn new(pace: T, is_patient: &'a Cell<bool>) -> Impatient<'a, T> {
        Impatient { pace, is_patient }
    }
}

impl<T: Pace> Pace for Impatient<'_, T> {
    ghost over = { λ impatient. T.over impatient.pace };

    fn next(&mut self) -> bool {
        let goes_on = self.pace.next();
        self.is_patient.set(!goes_on);
        goes_on
    }

    fn late(&mut self) -> Option<u64> {
        self.pace.late()
    }

    fn missed(&mut self) -> u64 {
        self.pace.missed()
    }

    fn left(&mut self) -> Option<u64> {
        self.pace.left()
    }

    fn spare(&mut self) -> u64 {
        self.pace.spare()
    }

    fn end(&mut self) {
        self.pace.end();
        self.is_patient.set(true);
    }

    fn now(&mut self) -> u64 {
        self.pace.now()
    }
}

/// Tells how many lines were left out of what was written there, if any were. A fault of that line is passed
/// over.
pub fn tell_left_out<V: Write>(what: &str, left_out: u64, err: &mut V) {
    if left_out != 0 {
        let _ = writeln!(
            err,
            "{what}: nobody read it, so lines were left out: {left_out}"
        );
    }
}
