//! A machine, which stands at the start of a run or at its end.

ghost use Rattle.std.specs.Prelude.{◌≡◌, true, IfOk, OnErr, IsOk, IsErr};
ghost use Rattle.gv_code.specs.Forward.{Forward};
ghost use Rattle.gv_calls.specs.Told.{answer_of};
ghost use Rattle.gv_machine.specs.Machine.{Advances, EndsWith, Lost, dropped, end_of, has_ended, lost, ready, stand_of, waiting};

use crate::end::{End, Pause};
use gv_base::OutOfMemory;
use gv_calls::Told;
use gv_code::{Body, Code};
use gv_meaning::{Why, World};
use gv_run::run;
use std::alloc::Global;
use std::marker::Model;
use std::mem;

/// Where a run stands.
#[derive(Drop)]
enum Rest {
    Ready(World),
    Ended(Told, World),
    Lost,
}

/// A code and its run in a world.
#[derive(Drop)]
pub struct Machine {
    code: Code,
    rest: Rest,
    alloc: Global,
}

impl Model for Machine {
    ghost use Rattle.gv_code.specs.Forward.{Forward};
    ghost use Rattle.gv_machine.specs.Machine.{Seen, stand_of};

    ghost Value = { Seen };

    ghost view = { λ m. record { code = m.code.bodies; stand = stand_of m.rest } };

    ghost invariant = { λ m. Forward m.code.bodies };
}

fn end_of(told: Told) -> End
    ensures { (w : World) → result ≡ end_of (answer_of told w) }
{
    match told {
        Told::Got(v) => End::Value(v),
        Told::Threw(v) => End::Uncaught(v),
        Told::Stopped(Why::Ticks) => End::Ticks,
        Told::Stopped(Why::Cells) => End::Cells,
        Told::Stopped(Why::Depth) => End::Depth,
    }
}

/// The end to which a run comes from where it stands.
fn finish(alloc: Global, code: &[Body], rest: Rest) -> Result<(Told, World), OutOfMemory>
    requires { Forward code.now }
    ensures ok { IfOk result (λ end. EndsWith code.now (stand_of rest) (answer_of end.0 end.1)) }
    ensures ended { has_ended (stand_of rest) ≡ true → IsOk result }
{
    match rest {
        Rest::Ready(world) => run(alloc, code, world),
        Rest::Ended(told, world) => Ok((told, world)),
        Rest::Lost => Err(OutOfMemory),
    }
}

impl Machine {
    /// A machine at the start of the run of a code in a world.
    pub fn new(alloc: Global, code: Code, world: World) -> Result<Machine, OutOfMemory>
        requires forward { Forward code.bodies }
        ensures { IfOk result (λ m. m ≡ ready code.bodies world) }
    {
        Ok(Machine {
            code,
            rest: Rest::Ready(world),
            alloc,
        })
    }

    /// Goes on to the end. After the end it answers that end again, and after want of memory want of memory.
    pub fn advance(&mut self) -> Result<Pause, OutOfMemory>
        ensures ok { IfOk result (λ pause. Advances self.old pause self.new) }
        ensures err { OnErr result (self.new ≡ lost self.old) }
        ensures ended { has_ended self.old.stand ≡ true → IsOk result }
        ensures lost { self.old.stand ≡ Lost → IsErr result }
    {
        let rest = mem::replace(&mut self.rest, Rest::Lost);
        let (told, world) = finish(self.alloc, self.code.bodies.as_slice(), rest)?;
        self.rest = Rest::Ended(told, world);
        Ok(Pause::Ended(end_of(told)))
    }

    /// The bytes that were printed and not dropped.
    pub fn output(&self) -> &[u8]
        ensures { result.now ≡ waiting self.now }
    {
        match &self.rest {
            Rest::Ready(world) | Rest::Ended(_, world) => world.output.as_slice(),
            Rest::Lost => &[],
        }
    }

    /// Drops them, and nothing else.
    pub fn drop_output(&mut self)
        ensures { self.new ≡ dropped self.old }
    {
        match &mut self.rest {
            Rest::Ready(world) => world.output.clear(),
            Rest::Ended(_, world) => world.output.clear(),
            Rest::Lost => {}
        }
    }
}
