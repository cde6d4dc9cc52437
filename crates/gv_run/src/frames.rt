//! Bodies that begin, wait and end.

ghost use Rattle.std.specs.Prelude.{◌≡◌, ◌∷◌, ◌++◌, [], IfOk, OnOk, suc, drop};
ghost use Rattle.gv_meaning.specs.Meaning.{fitted, filled};
ghost use Rattle.gv_meaning.specs.Machine.{begin, body_in, enter, handler_at, popped, resume, unwind};
ghost use Rattle.gv_calls.specs.Told.{chosen_of};
ghost use Rattle.gv_run.specs.States.{acts, frame_of, state_of};

use crate::operands::{no_operand, push_on};
use crate::state::{Control, Mode, Running};
use gv_base::{BodyId, Name, OutOfMemory, PlaceId, Value};
use gv_calls::{Chosen, Told, call};
use gv_code::{Body, Handler, Op, Stack};
use gv_meaning::{Cell, Frame, Why};
use sqlite_items::Items;
use std::alloc::Global;

fn find_handler(handlers: &[Handler], at: usize) -> Option<Handler>
    ensures { result ≡ handler_at handlers.now at }
{
    for h in handlers {
        if h.from <= at && at < h.to {
            return Some(*h);
        }
    }
    None
}

/// The handler that takes a throw at a place of a body.
fn handler_in(code: &[Body], body: BodyId, at: usize) -> Option<Handler>
    ensures { result ≡ handler_at (body_in code.now body).handlers at }
{
    match code.get(body) {
        None => None,
        Some(b) => find_handler(b.handlers.as_slice(), at),
    }
}

/// How many variables a body captures, and how many parameters it has.
fn counts(code: &[Body], body: BodyId) -> (usize, usize)
    ensures captured { result.0 ≡ (body_in code.now body).captured }
    ensures parameters { result.1 ≡ (body_in code.now body).parameters }
{
    match code.get(body) {
        None => (0, 0),
        Some(b) => (b.captured, b.parameters),
    }
}

fn place_at(places: &[PlaceId], i: usize) -> PlaceId
    ensures { fitted 1 (drop i places.now) ≡ Cell.Shared result ∷ [] }
{
    match places.get(i) {
        Some(place) => *place,
        None => 0,
    }
}

fn value_at(values: &[Value], i: usize) -> Value
    ensures { filled 1 (drop i values.now) ≡ Cell.Own result ∷ [] }
{
    match values.get(i) {
        Some(v) => *v,
        None => Value::Null,
    }
}

/// Exactly n shared variables.
fn captured_cells(alloc: Global, n: usize, places: &[PlaceId]) -> Result<Items<Cell>, OutOfMemory>
    ensures { IfOk result (λ cells. cells ≡ fitted n places.now) }
{
    let mut cells = Items::new(alloc);
    for i in 0..n {
        cells.push(Cell::Shared(place_at(places, i)))?;
    }
    Ok(cells)
}

/// Behind others, exactly n variables of these values.
fn with_arguments(
    cells: Items<Cell>,
    n: usize,
    values: &[Value],
) -> Result<Items<Cell>, OutOfMemory>
    ensures { IfOk result (λ all. all ≡ cells ++ filled n values.now) }
{
    let mut cells = cells;
    for i in 0..n {
        cells.push(Cell::Own(value_at(values, i)))?;
    }
    Ok(cells)
}

/// The variables with which a body begins.
pub(crate) fn first_slots(
    alloc: Global,
    code: &[Body],
    body: BodyId,
    captured: &[PlaceId],
    arguments: &[Value],
) -> Result<Items<Cell>, OutOfMemory>
    ensures { IfOk result (λ slots. slots ≡ fitted (body_in code.now body).captured captured.now ++ filled (body_in code.now body).parameters arguments.now) }
{
    let (shared, parameters) = counts(code, body);
    let cells = captured_cells(alloc, shared, captured)?;
    with_arguments(cells, parameters, arguments)
}

fn waiting(now: Running) -> Frame
    ensures { result ≡ frame_of now }
{
    let Running {
        body,
        at,
        stack,
        slots,
    } = now;
    Frame {
        body,
        at,
        stack,
        slots,
    }
}

fn going(frame: Frame) -> Running
    ensures { frame_of result ≡ frame }
{
    let Frame {
        body,
        at,
        stack,
        slots,
    } = frame;
    Running {
        body,
        at,
        stack,
        slots,
    }
}

impl Control {
    /// A value for what waits.
    fn resume(&mut self, v: Value) -> Result<Mode, OutOfMemory>
        ensures { IfOk result (λ mode. resume v self.old.frames self.old.depth self.old.world ≡ state_of mode self.new) }
    {
        match self.frames.pop() {
            Some(frame) => push_on(going(frame), v),
            None => Ok(Mode::Over(Told::Got(v))),
        }
    }

    /// One more level of depth is left.
    fn rise(&mut self) -> Result<(), OutOfMemory>
        ensures { OnOk result (self.new ≡ record self.old { depth = suc self.old.depth }) }
    {
        self.depth = self.depth.checked_add(1).ok_or(OutOfMemory)?;
        Ok(())
    }

    /// A throw leaves bodies until one has a handler.
    fn unwind(&mut self, code: &[Body], v: Value) -> Result<Mode, OutOfMemory>
        ensures { IfOk result (λ mode. unwind code.now v self.old.frames self.old.depth self.old.world ≡ state_of mode self.new) }
    {
        'bodies: while let Some(frame) = self.frames.pop() {
            if let Some(h) = handler_in(code, frame.body, frame.at) {
                let mut now = going(frame);
                now.stack.cut(h.kept);
                now.stack.push(v)?;
                now.at = h.target;
                return Ok(Mode::At(now));
            }
            self.rise()?;
        }
        Ok(Mode::Over(Told::Threw(v)))
    }

    /// A body begins, one deeper.
    fn enter(
        &mut self,
        alloc: Global,
        code: &[Body],
        body: BodyId,
        captured: &[PlaceId],
        arguments: &[Value],
    ) -> Result<Mode, OutOfMemory>
        ensures { IfOk result (λ mode. enter code.now body captured.now arguments.now self.old.world self.old.frames self.old.depth ≡ state_of mode self.new) }
    {
        if self.depth == 0 {
            return Ok(Mode::Over(Told::Stopped(Why::Depth)));
        }
        self.depth -= 1;
        let slots = first_slots(alloc, code, body, captured, arguments)?;
        Ok(Mode::At(Running {
            body,
            at: 0,
            stack: Stack::new(alloc),
            slots,
        }))
    }

    /// A running body lets another one begin, or has its answer at once.
    fn begin(
        &mut self,
        alloc: Global,
        code: &[Body],
        now: Running,
        chosen: Chosen,
    ) -> Result<Mode, OutOfMemory>
        ensures { IfOk result (λ mode. begin code.now (chosen_of chosen self.old.world) (frame_of now ∷ self.old.frames) self.old.depth ≡ state_of mode self.new) }
    {
        match chosen {
            Chosen::Enter(body, captured, arguments) => {
                self.frames.push(waiting(now))?;
                self.enter(alloc, code, body, captured.as_slice(), arguments.as_slice())
            }
            Chosen::Else(Told::Got(v)) => push_on(now, v),
            Chosen::Else(Told::Threw(v)) => {
                self.frames.push(waiting(now))?;
                self.unwind(code, v)
            }
            Chosen::Else(Told::Stopped(why)) => Ok(Mode::Over(Told::Stopped(why))),
        }
    }

    pub(crate) fn invoke(
        &mut self,
        alloc: Global,
        code: &[Body],
        now: Running,
        name: Name,
        n: usize,
    ) -> Result<Mode, OutOfMemory>
        ensures { IfOk result (λ mode. acts code.now (Op.Invoke name n) now self.old ≡ state_of mode self.new) }
    {
        let mut now = now;
        let chosen = call(alloc, &mut self.world, name, now.stack.last(n))?;
        drop_top(&mut now.stack, n);
        self.begin(alloc, code, now, chosen)
    }

    pub(crate) fn finish(&mut self, code: &[Body], now: Running) -> Result<Mode, OutOfMemory>
        ensures { IfOk result (λ mode. acts code.now Op.Finish now self.old ≡ state_of mode self.new) }
    {
        let mut now = now;
        let Some(v) = now.stack.pop() else {
            return Ok(no_operand());
        };
        self.rise()?;
        self.resume(v)
    }
}

/// Gives up so many operands from the top.
fn drop_top(stack: &mut Stack<Value>, n: usize)
    ensures { stack.new ≡ drop n stack.old }
{
    let kept = stack.len().saturating_sub(n);
    stack.cut(kept);
}
