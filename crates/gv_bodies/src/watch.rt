ghost use Rattle.std.specs.Prelude.{◌≡◌, OnOk};
ghost use Rattle.gv_bodies.specs.Bodies as spec;

use crate::frame::Frame;
use crate::held::Held;
use gv_base::{Name, OutOfMemory, Place, Refusal, RefusalKind};
use gv_events::{Event, Scope};
use gv_refusals::earlier;
use gv_tree::Ident;
use sqlite_items::Items;
use std::alloc::Global;
use std::marker::Model;

/// What is known at a place of a script's events.
#[derive(Drop)]
pub(crate) struct Watch {
    held: Held,
    inner: Frame,
    outer: Vec<Frame>,
    first: Option<Refusal>,
}

impl Model for Watch {
    ghost use Rattle.gv_bodies.specs.Bodies.{WatchState};

    ghost Value = { WatchState };

    ghost view = { λ w. record { held = w.held; inner = w.inner; outer = w.outer.items; first = w.first } };
}

impl Watch {
    /// Outside of all scopes.
    pub(crate) fn new(alloc: Global, first: Option<Refusal>) -> Watch
        ensures { result ≡ spec.outside first }
    {
        Watch {
            held: Held::new(alloc),
            inner: Frame {
                names: 0,
                breaks: false,
                continues: false,
                member: Scope::Script,
            },
            outer: Vec::new(alloc),
            first,
        }
    }

    pub(crate) fn first(&self) -> Option<Refusal>
        ensures { result ≡ self.now.first }
    {
        self.first
    }

    /// Goes past an event.
    pub(crate) fn pass(&mut self, event: Event) -> Result<(), OutOfMemory>
        ensures { OnOk result (self.new ≡ spec.after event self.old) }
    {
        match event {
            Event::Open(scope) => self.open(scope),
            Event::Close => {
                self.close();
                Ok(())
            }
            Event::Declare(ident) | Event::Parameter(ident) => self.declare(ident),
            Event::Implicit(name) => self.hold(name),
            Event::OpenClass(_)
            | Event::CloseClass
            | Event::Use(_)
            | Event::UseOfThis(_)
            | Event::Class(_) => Ok(()),
            Event::Leave(place, leave) => {
                self.unless(
                    self.inner.may_leave(leave),
                    RefusalKind::NothingToLeave,
                    place,
                );
                Ok(())
            }
            Event::This(place) => {
                self.unless(
                    self.inner.has_this(),
                    RefusalKind::ThisOrSuperOutOfPlace,
                    place,
                );
                Ok(())
            }
            Event::SuperCall(place) => {
                self.unless(
                    self.inner.has_super(),
                    RefusalKind::ThisOrSuperOutOfPlace,
                    place,
                );
                Ok(())
            }
            Event::OutOfPlace(place) => {
                self.note(RefusalKind::ThisOrSuperOutOfPlace, place);
                Ok(())
            }
        }
    }

    fn open(&mut self, scope: Scope) -> Result<(), OutOfMemory>
        ensures { OnOk result (self.new ≡ spec.opened scope self.old) }
    {
        self.outer.push(self.inner)?;
        self.inner = self.inner.within(scope, self.held.len());
        Ok(())
    }

    fn close(&mut self)
        ensures { self.new ≡ spec.closed self.old }
    {
        let count = self.outer.len();
        if count > 0 {
            self.held.keep(self.inner.names);
            self.inner = self.outer[count - 1];
            self.outer.truncate(count - 1);
        }
    }

    fn declare(&mut self, ident: Ident) -> Result<(), OutOfMemory>
        ensures { OnOk result (self.new ≡ spec.declared ident self.old) }
    {
        if !self.held.hold(ident.name)? {
            self.note(RefusalKind::NameDeclaredTwice, ident.place);
        }
        Ok(())
    }

    fn hold(&mut self, name: Name) -> Result<(), OutOfMemory>
        ensures { OnOk result (self.new ≡ spec.held_too name self.old) }
    {
        self.held.hold(name)?;
        Ok(())
    }

    fn note(&mut self, kind: RefusalKind, place: Place)
        ensures { self.new ≡ spec.noted kind place self.old }
    {
        self.first = earlier(self.first, Refusal { kind, place });
    }

    fn unless(&mut self, fine: bool, kind: RefusalKind, place: Place)
        ensures { self.new ≡ spec.unless fine kind place self.old }
    {
        if !fine {
            self.note(kind, place);
        }
    }
}
