#![tactic(auto)]
//! Tests of the crates below the program, by public calls alone: `wire` of `ec_wire`, `merge` of `ec_merge`,
//! `regs` of `ec_regs`, `areas` of `ec_areas`, `esc` of `ec_esc`, `app` of `ec_app`, `ring` of `ec_ring`,
//! `process` of `ec_applications`, `diag` of `ec_diag`, `check` of `ec_check`, `map` of `ec_map`, `master` of
//! `ec_master`, `services` of `ec_services` and `ec_acyclic`; and `over_ring`: rings that the laws of
//! `ec_over_ring` speak of.
//! What is records, bytes in and bytes out is rows of `data/`, which `ec_rows` runs.

#[cfg(test)]
mod app;
#[cfg(test)]
mod areas;
#[cfg(test)]
mod asserts;
#[cfg(test)]
mod check;
#[cfg(test)]
mod diag;
#[cfg(test)]
mod esc;
#[cfg(test)]
mod map;
#[cfg(test)]
mod master;
#[cfg(test)]
mod merge;
#[cfg(test)]
mod over_ring;
#[cfg(test)]
mod process;
#[cfg(test)]
mod regs;
#[cfg(test)]
mod ring;
#[cfg(test)]
mod services;
#[cfg(test)]
mod wire;
