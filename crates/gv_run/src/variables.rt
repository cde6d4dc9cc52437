//! Variables.

ghost use Rattle.std.specs.Prelude.{◌≡◌, ◌∷◌, ◌++◌, [], ◌+◌, IfOk, take};
ghost use Rattle.gv_meaning.specs.World.{held, read};
ghost use Rattle.gv_meaning.specs.Meaning.{cell_of, with_cell};
ghost use Rattle.gv_run.specs.States.{acts, IsPlaced, state_of};

use crate::operands::{go_on, no_operand, push_on};
use crate::state::{Control, Mode, Running};
use gv_base::{OutOfMemory, PlaceId, Value};
use gv_calls::Told;
use gv_code::{Body, Op};
use gv_heap::HeapError;
use gv_meaning::{Cell, Why, World};
use sqlite_items::Items;

/// What the variable in a slot is kept in; null, where the slot isn't there.
fn cell_at(slots: &Items<Cell>, slot: usize) -> Cell
    ensures { result ≡ cell_of slots.now slot }
{
    match slots.get(slot) {
        Some(cell) => *cell,
        None => Cell::Own(Value::Null),
    }
}

/// Sets the variable in a slot; nothing, where the slot isn't there.
fn set_cell(slots: &mut Items<Cell>, slot: usize, v: Value)
    ensures { slots.new ≡ with_cell slot v slots.old }
{
    if slot < slots.len() {
        slots.set(slot, Cell::Own(v));
    }
}

/// Gives up all variables but so many.
fn cut(slots: &mut Items<Cell>, kept: usize)
    ensures { slots.new ≡ take kept slots.old }
{
    'cut: while slots.len() > kept {
        let _last = slots.pop();
    }
}

fn value_at(world: &World, place: PlaceId) -> Value
    ensures { result ≡ held world.now place }
{
    match world.heap.get_place(place) {
        Some(v) => v,
        None => Value::Null,
    }
}

fn value_in(world: &World, cell: Cell) -> Value
    ensures { result ≡ read cell world.now }
{
    match cell {
        Cell::Own(v) => v,
        Cell::Shared(place) => value_at(world, place),
    }
}

impl Control {
    pub(crate) fn load(&self, code: &[Body], now: Running, slot: usize) -> Result<Mode, OutOfMemory>
        ensures { IfOk result (λ mode. acts code.now (Op.Load slot) now self.now ≡ state_of mode self.now) }
    {
        let v = value_in(&self.world, cell_at(&now.slots, slot));
        push_on(now, v)
    }

    pub(crate) fn store(
        &mut self,
        code: &[Body],
        now: Running,
        slot: usize,
    ) -> Result<Mode, OutOfMemory>
        ensures { IfOk result (λ mode. acts code.now (Op.Store slot) now self.old ≡ state_of mode self.new) }
    {
        let mut now = now;
        let Some(v) = now.stack.pop() else {
            return Ok(no_operand());
        };
        match cell_at(&now.slots, slot) {
            Cell::Own(_) => set_cell(&mut now.slots, slot, v),
            Cell::Shared(place) => self.world.heap.set_place(place, v),
        }
        push_on(now, v)
    }

    pub(crate) fn declare(
        &self,
        code: &[Body],
        now: Running,
        slot: usize,
    ) -> Result<Mode, OutOfMemory>
        ensures { IfOk result (λ mode. acts code.now (Op.Declare slot) now self.now ≡ state_of mode self.now) }
    {
        let mut now = now;
        let Some(v) = now.stack.pop() else {
            return Ok(no_operand());
        };
        cut(&mut now.slots, slot);
        now.slots.push(Cell::Own(v))?;
        go_on(now, 0)
    }

    pub(crate) fn declare_shared(
        &mut self,
        code: &[Body],
        now: Running,
        slot: usize,
    ) -> Result<Mode, OutOfMemory>
        ensures { IfOk result (λ mode. acts code.now (Op.DeclareShared slot) now self.old ≡ state_of mode self.new) }
    {
        let mut now = now;
        let Some(v) = now.stack.pop() else {
            return Ok(no_operand());
        };
        match self.place_for(v)? {
            Some(place) => share(now, slot, place),
            None => Ok(Mode::Over(Told::Stopped(Why::Cells))),
        }
    }

    /// A new place with this value, for a cell, if one is left.
    fn place_for(&mut self, v: Value) -> Result<Option<PlaceId>, OutOfMemory>
        ensures { IfOk result (λ place. IsPlaced v self.old place self.new) }
    {
        match self.world.heap.make_place(v, true) {
            Ok(place) => Ok(Some(place)),
            Err(HeapError::CellsSpent) => Ok(None),
            Err(HeapError::OutOfMemory) => Err(OutOfMemory),
        }
    }
}

/// The body goes on with a new variable, which is kept at a place.
fn share(now: Running, slot: usize, place: PlaceId) -> Result<Mode, OutOfMemory>
    ensures { IfOk result (λ mode. mode ≡ Mode.At (record now { at = now.at + 1; slots = take slot now.slots ++ Cell.Shared place ∷ [] })) }
{
    let mut now = now;
    cut(&mut now.slots, slot);
    now.slots.push(Cell::Shared(place))?;
    go_on(now, 0)
}
