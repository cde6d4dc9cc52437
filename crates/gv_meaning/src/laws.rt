ghost use Rattle.std.specs.Prelude.{◌≡◌, false, pos, [], ◌∷◌, ◌++◌, codes};
ghost use Rattle.gv_base.specs.declared.value.Value.TheVariants.{Bool, Int};
ghost use Rattle.gv_meaning.specs.Examples.{world, looping, breaking, sharing, calling};
ghost use Rattle.gv_meaning.specs.Meaning.{meaning};
ghost use Rattle.gv_meaning.specs.World.{Got, Stopped, Ticks, Cells};

/// What small scripts mean. A loop takes a tick before each test, also before the one that fails, and a run that lacks one stops
/// there. A call takes a tick, and what it throws is made for cells. A variable that closures share costs a cell.
pub fn examples()
    ensures looping { meaning looping (world 2 0) ≡ Got (Bool false) (world 0 0) }
    ensures stopping { meaning looping (world 1 0) ≡ Stopped Ticks (world 0 0) }
    ensures breaking { meaning breaking (world 1 0) ≡ Got (Int (pos 2)) (world 0 0) }
    ensures calling { meaning calling (world 2 0) ≡ Stopped Cells (record (world 0 0) { output = codes "true" ++ 10 ∷ [] }) }
    ensures lacking { meaning sharing (world 1 0) ≡ Stopped Cells (world 1 0) }
{}
