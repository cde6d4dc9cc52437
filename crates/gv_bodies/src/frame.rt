ghost use Rattle.std.specs.Prelude.{◌≡◌};
ghost use Rattle.gv_bodies.specs.Bodies as spec;

use gv_events::Scope;
use gv_tree::Leave;

/// A scope, as far as what stands in it is judged by it.
#[derive(Clone, Copy, Debug)]
pub struct Frame {
    /// How many names were held where it began.
    pub names: usize,
    /// Whether a `break` has something to leave.
    pub breaks: bool,
    /// Whether a `continue` has.
    pub continues: bool,
    /// The method, constructor, field or script that it is, or stands in.
    pub member: Scope,
}

impl Frame {
    /// A scope in this one, where so many names are held.
    pub(crate) fn within(self, scope: Scope, names: usize) -> Frame
        ensures { result ≡ spec.within scope names self }
    {
        match scope {
            Scope::Loop => Frame {
                names,
                breaks: true,
                continues: true,
                member: self.member,
            },
            Scope::Switch => Frame {
                names,
                breaks: true,
                continues: self.continues,
                member: self.member,
            },
            Scope::Block => Frame {
                names,
                breaks: self.breaks,
                continues: self.continues,
                member: self.member,
            },
            Scope::Closure => Frame {
                names,
                breaks: false,
                continues: false,
                member: self.member,
            },
            _ => Frame {
                names,
                breaks: false,
                continues: false,
                member: scope,
            },
        }
    }

    pub(crate) fn may_leave(self, leave: Leave) -> bool
        ensures { result ≡ spec.may_leave leave self }
    {
        match leave {
            Leave::Break => self.breaks,
            Leave::Continue => self.continues,
        }
    }

    pub(crate) fn has_this(self) -> bool
        ensures { result ≡ spec.has_this self.member }
    {
        !matches!(self.member, Scope::StaticMethod)
    }

    pub(crate) fn has_super(self) -> bool
        ensures { result ≡ spec.has_super self.member }
    {
        matches!(self.member, Scope::Method)
    }
}
