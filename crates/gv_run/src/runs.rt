//! Steps, up to the end.

ghost use Rattle.std.specs.Prelude.{◌≡◌, ◌∷◌, [], ℕ, IfOk, option_map, slice_get};
ghost use Rattle.gv_code.specs.Forward.{Forward};
ghost use Rattle.gv_meaning.specs.Machine.{Over, body_in, opened, step, steps};
ghost use Rattle.gv_calls.specs.Told.{answer_of};
ghost use Rattle.gv_run.specs.Runs.{ComesTo, EndsIn};
ghost use Rattle.gv_run.specs.States.{state_of};

use crate::frames::first_slots;
use crate::operands::no_operand;
use crate::state::{Control, Mode, Running};
use gv_base::{OutOfMemory, Value};
use gv_calls::Told;
use gv_code::{Body, Op, Stack};
use gv_meaning::World;
use std::alloc::Global;

/// The instruction at a place of a body.
fn op_at(code: &[Body], body: usize, at: usize) -> Option<Op>
    ensures { result ≡ option_map (λ i. i.op) (slice_get (body_in code.now body).steps at) }
{
    match code.get(body) {
        None => None,
        Some(b) => b.steps.get(at).map(|instruction| instruction.op),
    }
}

impl Control {
    /// One step of a running body.
    fn step(&mut self, alloc: Global, code: &[Body], now: Running) -> Result<Mode, OutOfMemory>
        ensures { IfOk result (λ next. step code.now (state_of (Mode.At now) self.old) ≡ state_of next self.new) }
    {
        match op_at(code, now.body, now.at) {
            None => Ok(no_operand()),
            Some(op) => self.act(alloc, code, now, op),
        }
    }

    /// All steps, up to the end.
    fn run_on(&mut self, alloc: Global, code: &[Body], mode: Mode) -> Result<Told, OutOfMemory>
        ghost limit: { ℕ }
        requires { EndsIn code.now limit (state_of mode self.old) }
        ensures { IfOk result (λ told. steps code.now limit (state_of mode self.old) ≡ Over (answer_of told self.new.world)) }
    {
        let mut mode = mode;
        'run: loop {
            match mode {
                Mode::At(now) => mode = self.step(alloc, code, now)?,
                Mode::Over(told) => return Ok(told),
            }
        }
    }
}

/// The run of a code in a world: how it ends, and the world that it leaves.
pub fn run(alloc: Global, code: &[Body], world: World) -> Result<(Told, World), OutOfMemory>
    requires { Forward code.now }
    ensures { IfOk result (λ end. ComesTo code.now world (answer_of end.0 end.1)) }
{
    let slots = first_slots(alloc, code, 0, &[], &[Value::Obj(world.script)])?;
    let mode = Mode::At(Running {
        body: 0,
        at: 0,
        stack: Stack::new(alloc),
        slots,
    });
    let depth = u64::from(world.depth);
    let mut control = Control {
        frames: Stack::new(alloc),
        depth,
        world,
    };
    let told = control.run_on(alloc, code, mode)?;
    let Control { world, .. } = control;
    Ok((told, world))
}
