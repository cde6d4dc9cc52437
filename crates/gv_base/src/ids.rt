//! The numbers by which things are known. Each counts from 0 in its own table.

/// A name, by its place in its table of names.
pub type Name = usize;

/// An object, by its number in its heap.
pub type ObjId = usize;

/// A place, which is the storage of one variable, by its number in its heap.
pub type PlaceId = usize;

/// A class, by its number among the known classes.
pub type ClassId = usize;

/// A method, by its number among the declared ones.
pub type MethodId = usize;

/// A built-in method, by its row in the table of built-in methods.
pub type NativeId = usize;

/// The body of a method, a constructor, a closure or the script, by its number in its unit.
pub type BodyId = usize;

/// A variable, by its number in its body.
pub type VarId = usize;
