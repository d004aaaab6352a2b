// A script that is run by one schedule after the other.

use ima_io::FreeGate;
use order_outcomes::counts::Order;
use order_sights::Sight;
use script_start::started;
use script_text::{Script, ScriptErr, parse};
use std::alloc::{AllocError as OutOfMemory, Global};
use std::marker::Model;
use task_core::{Task, World};
use task_runner::run_schedule;
use xattr_store::Bytes;

/// A script that is run by one schedule after the other. Its own ending isn't followed. Contracts
/// see its scene.
#[derive(Drop)]
pub struct Play {
    text: Bytes,
    tasks: u32,
}

impl Model for Play {
    ghost use Rattle.std.specs.Prelude.{IsTrue};
    ghost use Rattle.order_outcomes.specs.reports.model.Scene.{Scene};
    ghost use Rattle.order_runs.specs.Plays.{is_play, scene_in};

    ghost Value = { Scene };

    ghost view = { λ p. scene_in p.text };

    ghost invariant = { λ p. IsTrue (is_play p.text p.tasks) };
}

impl Play {
    ghost use Rattle.std.specs.Prelude.{◌≡◌, ◌<◌, ◌-◌, ◌^◌, IfOk, length};
    ghost use Rattle.order_outcomes.specs.scripts.Forms.{IsScript};
    ghost use Rattle.order_outcomes.specs.scripts.Grammar.{script_of};
    ghost use Rattle.order_sights.specs.Sights.{IsSight};
    ghost use Rattle.order_runs.specs.Plays.{IsRunTo, IsSchedule, IsScriptOf, Plays, moment_by};

    /// The play of the script of this text, or the first fault of the text.
    pub fn read(alloc: Global, text: Bytes) -> Result<Play, ScriptErr>
        requires { length text < 2 ^ 32 - 1 }
        ensures { Plays result (script_of text) }
    {
        let script = parse(alloc, text.as_slice())?;
        let tasks = script.tasks.len() as u32;
        Ok(Play { text, tasks })
    }

    /// The number of tasks.
    pub fn tasks(&self) -> u32
        ensures { result ≡ length self.now.programs }
    {
        self.tasks
    }

    // The script. A run consumes its script, so the text is parsed for each.
    fn script(&self, alloc: Global) -> Result<Script, OutOfMemory>
        ensures scene { IfOk result (IsScriptOf self.now) }
        ensures kept { IfOk result IsScript }
    {
        match parse(alloc, self.text.as_slice()) {
            Ok(script) => Ok(script),
            Err(ScriptErr::Refused(_)) => unreachable!(),
            Err(ScriptErr::OutOfMemory) => Err(OutOfMemory),
        }
    }

    // The world and the tasks after a run of these turns.
    fn run(&self, alloc: Global, turns: &Order) -> Result<(World, Vec<Task>), OutOfMemory>
        requires { IsSchedule self.now turns.now }
        ensures { IfOk result (λ r. IsRunTo self.now turns.now r.0 r.1.items) }
    {
        let script = self.script(alloc)?;
        let (mut world, mut tasks, _ending) = started(alloc, script)?;
        run_schedule(&mut world, &mut tasks, turns.as_slice(), &FreeGate)?;
        Ok((world, tasks))
    }

    /// What is seen after a run of these turns. The script is run twice: one run is closed, and the
    /// other is kept as it stands.
    pub fn sight(&self, alloc: Global, turns: &Order) -> Result<Sight, OutOfMemory>
        requires { IsSchedule self.now turns.now }
        ensures { IfOk result (IsSight self.now (moment_by self.now turns.now)) }
    {
        let (closing, closing_tasks) = self.run(alloc, turns)?;
        let ended = closing.close(closing_tasks)?;
        let (world, tasks) = self.run(alloc, turns)?;
        Ok(Sight {
            ended,
            world,
            tasks,
        })
    }
}
