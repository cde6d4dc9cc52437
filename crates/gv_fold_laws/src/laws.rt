//! What the methods come to.

ghost use Rattle.std.specs.Prelude.{ℕ, List, All};
ghost use Rattle.gv_base.specs.declared.value.Value.{Value};
ghost use Rattle.gv_classes.specs.declared.declared.Declared.{Declared};
ghost use Rattle.gv_fold_laws.specs.Methods.{Gathers, Given, IsTold, Judges, Stops};

/// `each`, `eachWithIndex`, `collect` and `inject` call their closure with each element in order, whatever it answers.
pub fn gathering()
    ensures { (names : List (List ℕ)) (classes : List Declared) (closure : Value) (gs : List Given) → Gathers names classes closure gs }
{}

/// `findAll`, `count`, `find`, `any` and `every` go by the truth of each answer.
pub fn judging()
    ensures all { (names : List (List ℕ)) (classes : List Declared) (closure : Value) (gs : List Given) → All (IsTold names classes closure) gs → Judges names classes closure gs }
    ensures stops { (names : List (List ℕ)) (classes : List Declared) (closure : Value) (gs : List Given) (last : Given) (behind : List Value) → All (IsTold names classes closure) gs → IsTold names classes closure last → Stops names classes closure gs last behind }
{}
