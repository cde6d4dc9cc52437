//! One instruction.

ghost use Rattle.std.specs.Prelude.{◌≡◌, ◌∷◌, [], IfOk};
ghost use Rattle.gv_run.specs.States.{acts, state_of};

use crate::operands::{are_equal, constant, go_on, is_true, no_operand, ordered, push_on};
use crate::state::{Control, Mode, Running};
use gv_base::{Name, OutOfMemory, Value};
use gv_calls::Told;
use gv_code::{Body, Op};
use gv_core::{Const, Order};
use gv_meaning::Why;
use std::alloc::Global;

impl Control {
    fn push(&self, code: &[Body], now: Running, value: Const) -> Result<Mode, OutOfMemory>
        ensures { IfOk result (λ mode. acts code.now (Op.Push value) now self.now ≡ state_of mode self.now) }
    {
        let v = constant(&self.world, value);
        push_on(now, v)
    }

    fn ordered(&self, code: &[Body], now: Running, order: Order) -> Result<Mode, OutOfMemory>
        ensures { IfOk result (λ mode. acts code.now (Op.Ordered order) now self.now ≡ state_of mode self.now) }
    {
        let mut now = now;
        let Some(v) = now.stack.pop() else {
            return Ok(no_operand());
        };
        push_on(now, ordered(order, v))
    }

    fn equal(&self, code: &[Body], now: Running) -> Result<Mode, OutOfMemory>
        ensures { IfOk result (λ mode. acts code.now Op.Equal now self.now ≡ state_of mode self.now) }
    {
        let mut now = now;
        let Some(y) = now.stack.pop() else {
            return Ok(no_operand());
        };
        let Some(x) = now.stack.pop() else {
            return Ok(no_operand());
        };
        push_on(now, Value::Bool(are_equal(x, y)))
    }

    fn not(&self, code: &[Body], now: Running) -> Result<Mode, OutOfMemory>
        ensures { IfOk result (λ mode. acts code.now Op.Not now self.now ≡ state_of mode self.now) }
    {
        let mut now = now;
        let Some(v) = now.stack.pop() else {
            return Ok(no_operand());
        };
        push_on(now, Value::Bool(!is_true(v)))
    }

    fn discard(&self, code: &[Body], now: Running) -> Result<Mode, OutOfMemory>
        ensures { IfOk result (λ mode. acts code.now Op.Discard now self.now ≡ state_of mode self.now) }
    {
        let mut now = now;
        let Some(_) = now.stack.pop() else {
            return Ok(no_operand());
        };
        go_on(now, 0)
    }

    fn tick(&mut self, code: &[Body], now: Running) -> Result<Mode, OutOfMemory>
        ensures { IfOk result (λ mode. acts code.now Op.Tick now self.old ≡ state_of mode self.new) }
    {
        if self.world.ticks == 0 {
            return Ok(Mode::Over(Told::Stopped(Why::Ticks)));
        }
        self.world.ticks -= 1;
        go_on(now, 0)
    }

    fn jump_back(&self, code: &[Body], now: Running, n: usize) -> Mode
        ensures { acts code.now (Op.JumpBack n) now self.now ≡ state_of result self.now }
    {
        let mut now = now;
        now.at = now.at.saturating_sub(n);
        Mode::At(now)
    }

    fn jump_unless(&self, code: &[Body], now: Running, n: usize) -> Result<Mode, OutOfMemory>
        ensures { IfOk result (λ mode. acts code.now (Op.JumpUnless n) now self.now ≡ state_of mode self.now) }
    {
        let mut now = now;
        let Some(v) = now.stack.pop() else {
            return Ok(no_operand());
        };
        if is_true(v) {
            go_on(now, 0)
        } else {
            go_on(now, n)
        }
    }

    fn leave(&self, code: &[Body], now: Running, n: usize, kept: usize) -> Result<Mode, OutOfMemory>
        ensures { IfOk result (λ mode. acts code.now (Op.Leave n kept) now self.now ≡ state_of mode self.now) }
    {
        let mut now = now;
        let Some(v) = now.stack.pop() else {
            return Ok(no_operand());
        };
        now.stack.cut(kept);
        now.stack.push(v)?;
        go_on(now, n)
    }

    /// What an instruction does.
    pub(crate) fn act(
        &mut self,
        alloc: Global,
        code: &[Body],
        now: Running,
        op: Op,
    ) -> Result<Mode, OutOfMemory>
        ensures { IfOk result (λ mode. acts code.now op now self.old ≡ state_of mode self.new) }
    {
        match op {
            Op::Push(value) => self.push(code, now, value),
            Op::Load(slot) => self.load(code, now, slot),
            Op::Store(slot) => self.store(code, now, slot),
            Op::Declare(slot) => self.declare(code, now, slot),
            Op::DeclareShared(slot) => self.declare_shared(code, now, slot),
            Op::Invoke(name, n) => self.invoke(alloc, code, now, name, n),
            Op::Ordered(order) => self.ordered(code, now, order),
            Op::Equal => self.equal(code, now),
            Op::Not => self.not(code, now),
            Op::Discard => self.discard(code, now),
            Op::Tick => self.tick(code, now),
            Op::JumpOn(n) => go_on(now, n),
            Op::JumpBack(n) => Ok(self.jump_back(code, now, n)),
            Op::JumpUnless(n) => self.jump_unless(code, now, n),
            Op::Leave(n, kept) => self.leave(code, now, n, kept),
            Op::Finish => self.finish(code, now),
        }
    }
}
