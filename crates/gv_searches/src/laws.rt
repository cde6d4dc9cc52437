//! What the methods answer where nobody is asked.

ghost use Rattle.std.specs.Prelude.{ℕ, List, All};
ghost use Rattle.gv_base.specs.declared.value.Value.{Value};
ghost use Rattle.gv_classes.specs.declared.declared.Declared.{Declared};
ghost use Rattle.gv_heap.specs.Heap.{HeapState};
ghost use Rattle.gv_searches.specs.Laws.{Finds, IsTold, Told};

/// Where no comparison asks, `contains` is whether one is equal, `indexOf` the first place, and `count` the number of them; `remove`
/// takes out the first one.
pub fn searching()
    ensures { (names : List (List ℕ)) (classes : List Declared) (heap : HeapState) (wanted : Value) (ts : List Told) → All (IsTold names classes heap wanted) ts → Finds names classes heap wanted ts }
{}
