use crate::closure::ClosureBox;
use crate::elements::Elements;
use crate::entries::Entries;
use crate::range::Range;
use gv_base::{ClassId, MetaObject, ObjId, Text, Value};
use sqlite_items::Items;

/// An object of a run.
#[derive(Debug, Drop)]
pub enum Object {
    /// A String.
    Text(Text),
    GString(Items<Part>),
    List(Elements),
    Map(Entries),
    Range(Range),
    Closure(ClosureBox),
    /// An entry of a map, as a walk hands it to a closure.
    Entry { key: Value, value: Value },
    /// An instance of a script class or of an exception class.
    Instance(Instance),
    Meta(MetaObject),
}

/// A part of a GString.
#[derive(Debug, Drop)]
pub enum Part {
    /// The fixed text between two parts of the source.
    Piece(Text),
    /// A value that was taken when the GString was made.
    Value(Value),
    /// A closure that is asked each time the text is.
    Lazy(ObjId),
}

/// An instance, with its fields by their numbers.
#[derive(Debug, Drop)]
pub struct Instance {
    pub class: ClassId,
    pub fields: Items<Value>,
    /// How many instances of script classes were made up to it, or 0.
    pub number: u64,
}
