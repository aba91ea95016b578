#![tactic(auto)]
//! Tests of captures that are read, listed, judged and written, by public calls alone: `source` of
//! `ecat_source`, `capture` of `ecat_capture`, `trips` of `ecat_trips`, `list` of `ecat_list`, `told` of
//! `ecat_told`, `judge` of `ecat_judge`, `tape` of `ecat_record`.

#[cfg(test)]
mod asserts;
#[cfg(test)]
mod capture;
#[cfg(test)]
mod judge;
#[cfg(test)]
mod list;
#[cfg(test)]
mod outputs;
#[cfg(test)]
mod source;
#[cfg(test)]
mod tape;
#[cfg(test)]
mod told;
#[cfg(test)]
mod trips;
