#![tactic(auto)]
//! Tests of scenes, and of the master that runs and of its pace over ports in memory, by public calls alone:
//! `scene` of `ecat_scene`, `lint` of `ecat_lint`, `text` of `ecat_text`, `run` of `ec_run`, `master` of
//! `ecat_master`, `pace` of `ecat_pace`.

#[cfg(test)]
mod asserts;
#[cfg(test)]
mod lint;
#[cfg(test)]
mod master;
#[cfg(test)]
mod pace;
#[cfg(test)]
mod run;
#[cfg(test)]
mod scene;
#[cfg(test)]
mod text;
