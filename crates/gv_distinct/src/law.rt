//! What the methods come to where nothing is asked.

ghost use Rattle.std.specs.Prelude.{ℕ, List, Bool};
ghost use Rattle.gv_base.specs.declared.value.Value.{Value};
ghost use Rattle.gv_classes.specs.declared.declared.Declared.{Declared};
ghost use Rattle.gv_distinct.specs.Laws.{MinusFilters, UniqueKeepsFirst};
ghost use Rattle.gv_heap.specs.Heap.{HeapState};

/// Where no comparison asks, `minus` keeps the elements that equal none of what is to go, and `unique` those of which no kept one
/// before is equal.
pub fn laws()
    ensures minus { (names : List (List ℕ)) (classes : List Declared) (heap : HeapState) (known : Value → Bool) (same : Value → Value → Bool) (id : ℕ) (removed : Value) → MinusFilters names classes heap known same id removed }
    ensures unique { (names : List (List ℕ)) (classes : List Declared) (heap : HeapState) (known : Value → Bool) (same : Value → Value → Bool) (id : ℕ) → UniqueKeepsFirst names classes heap known same id }
{}
