use gv_base::{ClassId, ObjId, Text};

/// What a map finds its entries by. Integer 1 and Long 1 are different keys.
#[derive(Debug, Drop, Hash)]
pub enum MapKey {
    Null,
    Bool(bool),
    Int(i32),
    Long(i64),
    /// A String, by its text.
    Text(Text),
    /// A GString, by the text that it had when it was put. It differs from the String of that text.
    GText(Text),
    Class(ClassId),
    /// An instance, by its identity.
    Obj(ObjId),
}

impl PartialEq for MapKey {
    ghost use Rattle.gv_heap.specs.Keys.{same_key, same_key_equiv};
    ghost use Rattle.std.specs.Cmp as cmp;

    ghost eq = { same_key };

    ghost laws = { cmp.partial_equiv_from_equiv same_key_equiv };

    fn eq(&self, other: &MapKey) -> bool {
        match (self, other) {
            (MapKey::Null, MapKey::Null) => true,
            (MapKey::Bool(a), MapKey::Bool(b)) => a == b,
            (MapKey::Int(a), MapKey::Int(b)) => a == b,
            (MapKey::Long(a), MapKey::Long(b)) => a == b,
            (MapKey::Text(a), MapKey::Text(b)) => a == b,
            (MapKey::GText(a), MapKey::GText(b)) => a == b,
            (MapKey::Class(a), MapKey::Class(b)) => a == b,
            (MapKey::Obj(a), MapKey::Obj(b)) => a == b,
            _ => false,
        }
    }
}

impl Eq for MapKey {
    ghost use Rattle.gv_heap.specs.Keys.{same_key_equiv};

    ghost laws = { same_key_equiv };
}
