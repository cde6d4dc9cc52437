ghost use Rattle.std.specs.Prelude.{◌≡◌, IfOk, OnOk};
ghost use Rattle.gv_phases.specs.Known.{AreKnown, with_known, accessor_names, scope_names};

use gv_base::{Name, Names, OutOfMemory};

/// The names that the rules speak of.
#[derive(Clone, Copy, Debug, PartialEq, Eq)]
pub struct Known {
    pub checks: gv_checks::Known,
    /// `#v`, the parameter of setters.
    pub value: Name,
    /// `owner`
    pub owner: Name,
    /// `delegate`
    pub delegate: Name,
    /// `resolveStrategy`
    pub resolve_strategy: Name,
}

impl Known {
    /// The names of these words, which the table has from then on.
    pub fn new(names: &mut Names) -> Result<Known, OutOfMemory>
        ensures known { IfOk result (λ known. AreKnown names.old known) }
        ensures names { OnOk result (names.new ≡ with_known names.old) }
    {
        let checks = gv_checks::Known::new(names)?;
        let value = names.intern("#v")?;
        let owner = names.intern("owner")?;
        let delegate = names.intern("delegate")?;
        let resolve_strategy = names.intern("resolveStrategy")?;
        Ok(Known {
            checks,
            value,
            owner,
            delegate,
            resolve_strategy,
        })
    }

    pub(crate) fn accessors(&self) -> gv_accessors::Known
        ensures { result ≡ accessor_names self.now }
    {
        gv_accessors::Known {
            declare: self.checks.declare,
            words: self.checks.words(),
            value: self.value,
        }
    }

    pub(crate) fn scopes(&self) -> gv_scopes::Known
        ensures { result ≡ scope_names self.now }
    {
        gv_scopes::Known {
            it: self.checks.it,
            script: self.checks.declare.script,
            owner: self.owner,
            delegate: self.delegate,
            resolve_strategy: self.resolve_strategy,
        }
    }
}
