//! A master over rings in memory, whose cables break and whose slaves are worked on while it runs.

/// What is printed of three slaves that are brought up over a whole cable, and then this.
macro_rules! brought {
    ($rest:expr) => {
        concat!(
            "slaves 3\nring whole\nstations given\nall in Init\nall in Pre-Op\nall in Safe-Op\n\
            all in Op\n",
            $rest
        )
    };
}

mod acyclic;
mod brought;
mod cabled;
mod door;
mod failing;
mod late;
pub(crate) mod line;
mod logged;
mod missing;
mod objects;
mod recovered;
mod scanned;
mod stage;
mod states;
mod swapped;
mod times;
