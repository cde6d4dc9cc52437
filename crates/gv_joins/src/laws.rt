//! What the methods come to where nothing is asked.

ghost use Rattle.std.specs.Prelude.{◌≡◌, ℕ, List, reverse};
ghost use Rattle.gv_classes.specs.declared.declared.Declared.{Declared};
ghost use Rattle.gv_heap.specs.Heap.{HeapState};
ghost use Rattle.gv_rows.specs.Values.{sequence_at};
ghost use Rattle.gv_joins.specs.Joins.{flatten_started, join_started};
ghost use Rattle.gv_joins.specs.Laws.{NoneInner, Say, separated};
ghost use Rattle.gv_joins.specs.declared.join.Outcome.TheVariants.{MakesList, MakesText};

/// Where no element's text asks, `join` makes the texts with the separator between.
pub fn joining()
    ensures { (names : List (List ℕ)) (classes : List Declared) (heap : HeapState) (id : ℕ) (separator : List ℕ) (ts : List (List ℕ)) → Say names classes heap (sequence_at heap id) ts → join_started names classes heap id separator ≡ MakesText (separated separator ts) }
{}

/// Where no element is a list or a range, `flatten` makes a list of the elements and asks nothing.
pub fn flattening()
    ensures { (heap : HeapState) (id : ℕ) → NoneInner heap (sequence_at heap id) → flatten_started heap id ≡ MakesList (reverse (sequence_at heap id)) }
{}
