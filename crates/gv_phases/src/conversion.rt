ghost use Rattle.std.specs.Prelude.{IfOk};
ghost use Rattle.gv_phases.specs.Phases.{IsConverted};

use crate::known::Known;
use crate::unit::{Converted, Parsed, Unit};
use gv_accessors::convert;
use gv_base::OutOfMemory;
use gv_checks::declared_classes;

impl Unit<Parsed> {
    /// Conversion: adds the accessors of properties, and gathers the classes.
    pub fn advance(self) -> Result<Unit<Converted>, OutOfMemory>
        ensures { IfOk result (λ unit. IsConverted self.names self.scripts.items unit.state.known unit.names unit.scripts.items unit.state.classes) }
    {
        let Unit {
            alloc,
            mut names,
            scripts,
            state: _,
        } = self;
        let known = Known::new(&mut names)?;
        let scripts = convert(alloc, &known.accessors(), &mut names, scripts)?;
        let classes = declared_classes(alloc, &known.checks, &mut names, scripts.as_slice())?;
        Ok(Unit {
            alloc,
            names,
            scripts,
            state: Converted { known, classes },
        })
    }
}
