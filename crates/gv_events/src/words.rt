//! The names that the rules themselves speak of.

ghost use Rattle.std.specs.Prelude.{◌≡◌, [], ◌∷◌};
ghost use Rattle.gv_events.specs.Events as spec;

use gv_base::Name;
use gv_tree::{Annotation, Ident};

/// The names of these words, in the table that the trees were made with.
#[derive(Clone, Copy, Debug, PartialEq, Eq)]
pub struct Words {
    /// `it`, the parameter of a closure without a parameter list.
    pub it: Name,
    /// `Field`
    pub field: Name,
    /// `groovy`
    pub groovy: Name,
    /// `transform`
    pub transform: Name,
}

impl Words {
    /// Whether a declaration at the top with these annotations declares fields of the script.
    pub fn has_field(self, annotations: &[Annotation]) -> bool
        ensures { result ≡ spec.has_field self annotations.now }
    {
        for annotation in annotations {
            if self.is_field(annotation) {
                return true;
            }
        }
        false
    }

    fn is_field(self, annotation: &Annotation) -> bool
        ensures { result ≡ spec.is_field self annotation.now }
    {
        let path = annotation.path.as_slice();
        is_one(self.field, path) || is_three(self.groovy, self.transform, self.field, path)
    }
}

fn is_one(name: Name, path: &[Ident]) -> bool
    ensures { result ≡ spec.path_is (name ∷ []) path.now }
{
    match path {
        [ident] => name == ident.name,
        _ => false,
    }
}

fn is_three(first: Name, second: Name, third: Name, path: &[Ident]) -> bool
    ensures { result ≡ spec.path_is (first ∷ second ∷ third ∷ []) path.now }
{
    match path {
        [a, b, c] => first == a.name && second == b.name && third == c.name,
        _ => false,
    }
}
