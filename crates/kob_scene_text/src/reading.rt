//! The reader of a scene. Every line is read before the first step is played.

ghost use Rattle.std.specs.Prelude.{◌≡◌, ◌++◌, IfOk, OnOk, replicate};
ghost use Rattle.kob_scene_text.specs.Scenes.{HasLines, MayRead};

use crate::fault::{SceneError, SceneFault, StepError};
use crate::line::read_line;
use crate::scene::{Consumer, Scene, Service, Step};
use bstr::ByteSlice;
use kob_names::{Items, Principal, Settings, sum_of};
use std::alloc::{AllocError, Global};

/// What was read of a scene so far.
#[derive(Drop)]
pub(crate) struct Reading {
    pub(crate) supers: Vec<Principal>,
    pub(crate) everyone: bool,
    pub(crate) services: Vec<Service>,
    pub(crate) consumers: Vec<Consumer>,
    pub(crate) steps: Vec<Step>,
}

/// Reads a scene to its end. Lines, words, escapes and comments are those of scripts. The error is
/// the first line with a fault, or out of memory. The words of an `acl` line are read by `clap`;
/// for some words the contract of its port allows more than one result.
pub fn read_scene(alloc: Global, text: &[u8]) -> Result<Scene, SceneError>
    ensures read { MayRead text.now result }
    ensures lines { IfOk result (λ scene. HasLines text.now (seen scene) scene.lines.items) }
{
    let mut reading = Reading {
        supers: Vec::new(alloc),
        everyone: false,
        services: Vec::new(alloc),
        consumers: Vec::new(alloc),
        steps: Vec::new(alloc),
    };
    let mut lines = Vec::new(alloc);
    let mut number = 0;
    for line in text.lines() {
        number = sum_of(number, 1).map_err(SceneError::Memory)?;
        let before = reading.steps.len();
        match read_line(alloc, &mut reading, line) {
            Ok(()) => {}
            Err(StepError::Memory(refused)) => return Err(SceneError::Memory(refused)),
            Err(StepError::Fault(kind)) => {
                return Err(SceneError::Fault(SceneFault {
                    line: number as u64,
                    kind,
                }));
            }
        }
        let added = reading.steps.len().saturating_sub(before);
        push_times(&mut lines, number as u64, added).map_err(SceneError::Memory)?;
    }
    Ok(reading.finished(alloc, lines))
}

/// Appends a number so many times.
fn push_times(lines: &mut Vec<u64>, number: u64, times: usize) -> Result<(), AllocError>
    ensures { OnOk result (lines.new.items ≡ lines.old.items ++ replicate times number) }
{
    for _ in 0..times {
        lines.push(number)?;
    }
    Ok(())
}

ghost use Rattle.kob_scene_text.specs.Scenes.{seen, so_far};

impl Reading {
    fn finished(self, alloc: Global, lines: Vec<u64>) -> Scene
        ensures seen { seen result ≡ so_far self }
        ensures lines { result.lines ≡ lines }
    {
        let Reading {
            supers,
            everyone,
            services,
            consumers,
            steps,
        } = self;
        Scene {
            settings: Settings {
                supers: Items::from_vec(supers),
                opening: Items::from_vec(Vec::new(alloc)),
                everyone,
            },
            services,
            consumers,
            steps,
            lines,
        }
    }
}
