use crate::ids::{ClassId, MethodId, Name, NativeId, ObjId};
use crate::value::Value;

/// What has members that can be added: a class for its instances, a class itself, or one object.
#[derive(Clone, Copy, Debug, PartialEq, Eq)]
pub enum MetaId {
    Class(ClassId),
    Side(ClassId),
    Own(ObjId),
}

/// The body that a call runs: a declared method, a method of a category, an added closure, or a
/// built-in method.
#[derive(Clone, Copy, Debug, PartialEq, Eq)]
pub enum Chosen {
    Declared(MethodId),
    Category(MethodId),
    Added(ObjId),
    Native(NativeId),
}

/// What a metaobject stands for. `side` says that it is of the class itself, not of its instances.
#[derive(Clone, Copy, Debug, PartialEq, Eq)]
pub enum MetaObject {
    /// A MetaClass, of a class or an object.
    Class { of: Value, side: bool },
    /// A MetaMember: a name of a class or an object, to which members are added.
    Member { of: Value, side: bool, name: Name },
    /// A MetaMethod: a method that was found, by the name under which it was sought.
    Method { name: Name, body: Chosen },
}
