ghost use Rattle.std.specs.Prelude.{◌≡◌, IfOk, OnOk};
ghost use Rattle.gv_lower.specs.Known.{AreKnown, with_known};

use gv_base::{Name, Names, OutOfMemory};
use gv_core::Order;

/// The methods by which operators are called, and the one that prints.
#[derive(Clone, Copy, Debug, PartialEq, Eq)]
pub struct Known {
    pub plus: Name,
    pub minus: Name,
    pub multiply: Name,
    pub compare_to: Name,
    pub println: Name,
}

/// How two values are compared.
#[derive(Clone, Copy, Debug, PartialEq, Eq)]
pub enum Comparison {
    /// By the answer of `compareTo`.
    ByOrder(Order),
    Equal,
    NotEqual,
}

impl Known {
    /// The names of these methods, which the table has from then on.
    pub fn new(names: &mut Names) -> Result<Known, OutOfMemory>
        ensures known { IfOk result (λ known. AreKnown names.new known) }
        ensures names { OnOk result (names.new ≡ with_known names.old) }
    {
        let plus = names.intern("plus")?;
        let minus = names.intern("minus")?;
        let multiply = names.intern("multiply")?;
        let compare_to = names.intern("compareTo")?;
        let println = names.intern("println")?;
        Ok(Known {
            plus,
            minus,
            multiply,
            compare_to,
            println,
        })
    }
}
