//! The commands over a scene and two writers.

ghost use Rattle.std.specs.Prelude.{◌≡◌, if◌then◌else◌};
ghost use Rattle.ecat_acts.specs.declared.act.Told.TheVariants.{Json, Texts};

use crate::failure::{Failure, report, status_of};
use ecat_record::unrecorded;
use ecat_scene::{Scene, SceneFault};
use ecat_setup::LineFailure;
use ecat_simulation::{
    Asked, check, cover, json_check, json_cover, json_lint, json_where, lint, run, sdo, sweep,
    where_broken,
};
use ecat_vectors::vectors;
use std::alloc::Global;
use std::io::Write;

/// How a command prints what it tells.
#[derive(Clone, Copy)]
pub enum Told {
    /// As texts.
    Texts,
    /// As objects of JSON, one a line.
    Json,
}

impl Told {
    /// How it prints where objects are asked for, or are not.
    pub fn of(json: bool) -> Told
        ensures { result ≡ (if json then Json else Texts) }
    {
        if json { Told::Json } else { Told::Texts }
    }
}

/// A command that needs nothing but its scene.
#[derive(Clone, Copy)]
pub enum Alone {
    /// `check`.
    Check(Told),
    /// `cover`.
    Cover(Told),
    /// `lint`.
    Lint(Told),
    /// `where`, of the line of the scene.
    Where(Told),
    /// `run`.
    Run {
        /// Whether its cycle is judged.
        judge: bool,
    },
    /// `sweep`.
    Sweep,
    /// `sdo`, of the line of the scene.
    Sdo(Asked),
}

/// Does a command on the scene that was read of this text, or tells why it is none, and answers the exit
/// status.
#[inline(never)]
pub fn act<W, V>(
    alloc: Global,
    command: &Alone,
    text: &[u8],
    scene: Result<Scene, SceneFault>,
    out: &mut W,
    err: &mut V,
) -> u8
where
    W: Write,
    V: Write,
{
    match scene {
        Ok(scene) => {
            let done = on_scene(alloc, command, text, scene, out, err);
            status_of(done, out, err)
        }
        Err(fault) => report(&Failure::Line(LineFailure::Scene(fault)), out, err),
    }
}

/// Runs the worked rows, and answers the exit status.
#[inline(never)]
pub fn act_vectors<W: Write, V: Write>(alloc: Global, out: &mut W, err: &mut V) -> u8 {
    let done = vectors(alloc, out);
    status_of(done, out, err)
}

/// Does a command on a scene. Each command is a function that is not put in line: the frame here would else
/// be as large as that of the command with the largest works, and each would pay for it.
fn on_scene<W, V>(
    alloc: Global,
    command: &Alone,
    text: &[u8],
    scene: Scene,
    out: &mut W,
    err: &mut V,
) -> Result<u8, LineFailure>
where
    W: Write,
    V: Write,
{
    match command {
        Alone::Check(Told::Texts) => check(alloc, &scene, out),
        Alone::Cover(Told::Texts) => cover(alloc, &scene, out),
        Alone::Lint(Told::Texts) => lint(alloc, text, &scene, out),
        Alone::Where(Told::Texts) => where_broken(alloc, scene, out),
        Alone::Check(Told::Json) => json_check(alloc, &scene, out),
        Alone::Cover(Told::Json) => json_cover(alloc, &scene, out),
        Alone::Lint(Told::Json) => json_lint(alloc, text, &scene, out),
        Alone::Where(Told::Json) => json_where(alloc, scene, out),
        Alone::Run { judge } => run(alloc, *judge, &mut unrecorded(), scene, out),
        Alone::Sweep => sweep(alloc, scene, out),
        Alone::Sdo(asked) => sdo(alloc, asked, scene, out, err),
    }
}
