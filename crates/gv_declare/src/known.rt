ghost use Rattle.std.specs.Prelude.{◌≡◌, IfOk, OnOk};
ghost use Rattle.gv_declare.specs.Known.{AreKnown, texts, with_names};

use gv_base::{Name, Names, OutOfMemory};

/// The names that these rules speak of.
#[derive(Clone, Copy, Debug, PartialEq, Eq)]
pub struct Known {
    /// `Object`
    pub object: Name,
    /// `Integer`
    pub integer: Name,
    /// `Long`
    pub long: Name,
    /// `Boolean`
    pub boolean: Name,
    /// `Script`
    pub script: Name,
    /// `GroovyInterceptable`
    pub interceptable: Name,
}

impl Known {
    /// The names of these words, which the table has from then on.
    pub fn new(names: &mut Names) -> Result<Known, OutOfMemory>
        ensures known { IfOk result (λ known. AreKnown names.new known) }
        ensures names { OnOk result (names.new ≡ with_names names.old texts) }
    {
        let object = names.intern("Object")?;
        let integer = names.intern("Integer")?;
        let long = names.intern("Long")?;
        let boolean = names.intern("Boolean")?;
        let script = names.intern("Script")?;
        let interceptable = names.intern("GroovyInterceptable")?;
        Ok(Known {
            object,
            integer,
            long,
            boolean,
            script,
            interceptable,
        })
    }
}
