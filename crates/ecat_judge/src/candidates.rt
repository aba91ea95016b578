//! What is tried as missing.

ghost use Rattle.std.specs.Prelude.{◌≡◌, ◌+◌, ◌++◌, ◌&&◌, ◌<◌, true, nat_lt, IfOk, OnOk};
ghost use Rattle.ecat_judge.specs.declared.share.Missing.TheVariants.{Inputs, Outputs, Slaves};
ghost use Rattle.ecat_judge.specs.Candidates.{AreCandidates, each_half, each_slave, neighbours, one_if};
ghost use Rattle.ecat_judge.specs.Candidates.{runs_from};

use crate::share::Missing;
use std::alloc::{AllocError, Global};

/// What is tried as missing, by classes.
#[derive(Drop)]
pub struct Candidates {
    /// Each slave alone.
    pub slaves: Vec<Missing>,
    /// The runs of neighbours that a broken line may lack.
    pub neighbours: Vec<Missing>,
    /// The inputs and the outputs alone of each slave.
    pub halves: Vec<Missing>,
}

/// Puts what may be missing, if it may.
fn put_if(all: &mut Vec<Missing>, may: bool, missing: Missing) -> Result<(), AllocError>
    ensures { OnOk result (all.new.items ≡ all.old.items ++ one_if may missing) }
{
    if may {
        all.push(missing)?;
    }
    Ok(())
}

/// Each slave alone.
fn each_slave(alloc: Global, count: usize) -> Result<Vec<Missing>, AllocError>
    ensures { IfOk result (λ all. all.items ≡ each_slave count) }
{
    let mut all = Vec::new(alloc);
    for place in 0..count {
        put_if(&mut all, true, Missing::Slaves(place, place + 1))?;
    }
    Ok(all)
}

/// Puts the inputs and the outputs alone of a slave.
fn put_halves(all: &mut Vec<Missing>, place: usize) -> Result<(), AllocError>
    ensures { OnOk result (all.new.items ≡ (all.old.items ++ one_if true (Inputs place))
        ++ one_if true (Outputs place)) }
{
    put_if(all, true, Missing::Inputs(place))?;
    put_if(all, true, Missing::Outputs(place))
}

/// The inputs and the outputs alone of each slave.
fn each_half(alloc: Global, count: usize) -> Result<Vec<Missing>, AllocError>
    ensures { IfOk result (λ all. all.items ≡ each_half count) }
{
    let mut all = Vec::new(alloc);
    for place in 0..count {
        put_halves(&mut all, place)?;
    }
    Ok(all)
}

/// May a run end in front of this place, where any may be missing and it must end behind that one?
fn ends_there(any: bool, behind: usize, to: usize) -> bool
    ensures { result ≡ (any && nat_lt behind to) }
{
    any && behind < to
}

/// Puts the runs of two slaves and more from a place on, in front of each place of the line where any may be
/// missing, and of its end.
fn put_runs(all: &mut Vec<Missing>, any: bool, from: usize, count: usize) -> Result<(), AllocError>
    requires { from < count }
    ensures { OnOk result (all.new.items ≡ (all.old.items ++ runs_from any from count)
        ++ one_if (nat_lt (from + 1) count) (Slaves from count)) }
{
    let behind = from + 1;
    for to in 0..count {
        put_if(all, ends_there(any, behind, to), Missing::Slaves(from, to))?;
    }
    put_if(all, behind < count, Missing::Slaves(from, count))
}

/// The runs of neighbours that a broken line may lack: all slaves from one on, and where any may be missing
/// between two others these too.
fn neighbours(alloc: Global, any: bool, count: usize) -> Result<Vec<Missing>, AllocError>
    ensures { IfOk result (λ all. all.items ≡ neighbours any count count) }
{
    let mut all = Vec::new(alloc);
    for from in 0..count {
        put_runs(&mut all, any, from, count)?;
    }
    Ok(all)
}

impl Candidates {
    /// What is tried of a line of so many slaves, of a master with two ports or one.
    pub fn new(alloc: Global, count: usize, two: bool) -> Result<Candidates, AllocError>
        ensures { IfOk result (λ candidates. AreCandidates candidates count two) }
    {
        let slaves = each_slave(alloc, count)?;
        let neighbours = neighbours(alloc, two, count)?;
        let halves = each_half(alloc, count)?;
        Ok(Candidates {
            slaves,
            neighbours,
            halves,
        })
    }
}
