//! The code of bodies and units.

ghost use Rattle.std.specs.Prelude.{◌≡◌, [], IfOk};
ghost use Rattle.gv_code.specs.Forward.{Forward};
ghost use Rattle.gv_written.specs.Correct.{IsRight};
ghost use Rattle.gv_written.specs.Written.{body_of, code_of};

use crate::pieces::end_with_null;
use crate::stmts::{higher, piece_of};
use gv_base::OutOfMemory;
use gv_code::{Body, Code, CodeBuilder};
use gv_core::Source;
use std::alloc::Global;

// The code of a body.
fn body(alloc: Global, source: &Source) -> Result<Body, OutOfMemory>
    ensures { IfOk result (λ body. body ≡ body_of source.now) }
{
    let height = higher(source.captured, source.parameters)?;
    let piece = piece_of(alloc, height, &[], &source.tree)?;
    let end = end_with_null(alloc)?;
    piece
        .join(end)?
        .finish(alloc, source.captured, source.parameters)
}

// The bodies of a unit, by their numbers.
fn bodies(alloc: Global, unit: &[Source]) -> Result<CodeBuilder, OutOfMemory>
    ensures { IfOk result (λ out. out.bodies ≡ code_of unit.now) }
{
    let mut out = CodeBuilder::new(alloc);
    for source in unit {
        let body = body(alloc, source)?;
        out.push_body(body)?;
    }
    Ok(out)
}

/// The code of a unit, of which the first body starts the run. It has no methods yet.
pub fn emit(alloc: Global, unit: &[Source]) -> Result<Code, OutOfMemory>
    ensures bodies { IfOk result (λ code. code.bodies ≡ code_of unit.now) }
    ensures right { IfOk result (λ code. IsRight code.bodies unit.now) }
    ensures forward { IfOk result (λ code. Forward code.bodies) }
    ensures methods { IfOk result (λ code. code.methods ≡ []) }
    ensures start { IfOk result (λ code. code.start ≡ 0) }
{
    let out = bodies(alloc, unit)?;
    Ok(out.finish())
}
