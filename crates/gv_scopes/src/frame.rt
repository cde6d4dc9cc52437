ghost use Rattle.std.specs.Prelude.{◌≡◌, None, Some, true, false};
ghost use Rattle.gv_scopes.specs.Scopes as spec;

use gv_base::{BodyId, VarId};

/// A scope, as far as what a name in it means is told by it.
#[derive(Clone, Copy, Debug)]
pub struct Frame {
    /// How many names were held where it began.
    pub names: usize,
    /// The body that it is, or stands in.
    pub body: BodyId,
    /// The parameter that the innermost closure without a parameter list has.
    pub it: Option<VarId>,
    pub in_closure: bool,
    /// Whether there is no object.
    pub is_static: bool,
}

impl Frame {
    /// A closure in this scope.
    pub(crate) fn closure(self, names: usize, body: BodyId) -> Frame
        ensures { result ≡ spec.closure_within names body self }
    {
        Frame {
            names,
            body,
            it: self.it,
            in_closure: true,
            is_static: self.is_static,
        }
    }

    /// A body that sees nothing of what is around it.
    pub(crate) fn member(names: usize, body: BodyId, is_static: bool) -> Frame
        ensures { result ≡ spec.member_within names body is_static }
    {
        Frame {
            names,
            body,
            it: None,
            in_closure: false,
            is_static,
        }
    }

    /// A scope in this one that is no body of its own.
    pub(crate) fn block(self, names: usize) -> Frame
        ensures { result ≡ spec.block_within names self }
    {
        Frame {
            names,
            body: self.body,
            it: self.it,
            in_closure: self.in_closure,
            is_static: self.is_static,
        }
    }
}
