use gv_base::Name;
use gv_events::Words;

/// The names that the rules speak of.
#[derive(Clone, Copy, Debug, PartialEq, Eq)]
pub struct Known {
    pub declare: gv_declare::Known,
    pub words: Words,
    /// `#v`, the parameter of a setter.
    pub value: Name,
}
