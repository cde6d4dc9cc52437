use crate::ids::{ClassId, ObjId};

/// A value of the language.
#[derive(Clone, Copy, Debug, PartialEq, Eq)]
pub enum Value {
    Null,
    Bool(bool),
    /// An Integer, of 32 bits.
    Int(i32),
    /// A Long, of 64 bits.
    Long(i64),
    Class(ClassId),
    Obj(ObjId),
}

/// What stands for the class of null among the classes of arguments: no class has this number.
pub const NULL_KIND: ClassId = usize::MAX;
