#![tactic(auto)]
//! Tests of the command line and of the commands over a scene's line, by public calls alone, each of which
//! accepts that an allocation is refused: `args` of `ecat_args`, `line` of `ecat_setup`, `simulation` of
//! `ecat_simulation`, `rows` of `ecat_vectors`, `service` of `ecat_service`, `acts` of `ecat_acts`. What a
//! command line shows is tried by `cases/`; here is what none does: reads, writes and lines that fail, memory
//! that is refused, what words give, and records that no scene says.

#[cfg(test)]
mod acts;
#[cfg(test)]
mod args;
#[cfg(test)]
mod chance;
#[cfg(test)]
mod line;
#[cfg(test)]
mod outputs;
#[cfg(test)]
mod reading;
#[cfg(test)]
mod rows;
#[cfg(test)]
mod service;
#[cfg(test)]
mod simulation;
