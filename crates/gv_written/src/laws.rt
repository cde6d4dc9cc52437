ghost use Rattle.std.specs.Prelude.{List};
ghost use Rattle.gv_core.specs.declared.stmt.Source.{Source};
ghost use Rattle.gv_code.specs.declared.code.Body.{Body};
ghost use Rattle.gv_written.specs.Correct.{IsRight};
ghost use Rattle.gv_code.specs.Forward.{Forward};
ghost use Rattle.gv_written.specs.Ending.{Ends};
ghost use Rattle.gv_written.specs.Written.{code_of};

/// The run of a unit's written code is what the unit means, whatever the unit and the world are.
pub fn written_is_right()
    ensures { (unit : List Source) → IsRight (code_of unit) unit }
{}

/// The run of code that goes forward, but for jumps back to where a tick is taken, comes to an end, whatever the world is.
pub fn forward_ends()
    ensures { (code : List Body) → Forward code → Ends code }
{}
