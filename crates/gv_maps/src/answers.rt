ghost use Rattle.std.specs.Prelude.{◌≡◌};
ghost use Rattle.gv_heap.specs.Heap.{object_at};
ghost use Rattle.gv_heap.specs.Kinds.{IsMapObject};
ghost use Rattle.gv_rows.specs.Reply.{Did, just};
ghost use Rattle.gv_maps.specs.Rows as spec;

use gv_base::{ObjId, Value};
use gv_heap::Heap;
use gv_rows::Done;

/// Answers a value, and makes nothing.
#[tactic(auto, using(gv_rows::proofs::CallerLemmas::did_just))]
pub(crate) fn answer(heap: &Heap, value: Value) -> Done
    ensures { Did heap.now (just heap.now value) result heap.now }
{
    Done::Value(value)
}

/// The number of a receiver.
pub(crate) fn object_of(heap: &Heap, receiver: Value) -> ObjId
    requires { spec.IsReceiver heap.now receiver }
    ensures number { result ≡ spec.object_of receiver }
    ensures kind { IsMapObject (object_at heap.now result) }
{
    let Value::Obj(id) = receiver else {
        unreachable!()
    };
    id
}
