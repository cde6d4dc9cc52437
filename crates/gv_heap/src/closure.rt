ghost use Rattle.std.specs.Prelude.{◌≡◌, IfOk};

use gv_base::{BodyId, Name, ObjId, OutOfMemory, PlaceId, Value};
use sqlite_items::Items;
use std::alloc::Global;
use std::marker::Model;

/// A closure.
#[derive(Debug, Drop)]
pub struct Closure {
    pub origin: Origin,
    /// At first the owner.
    pub delegate: Value,
    /// At most 4.
    pub strategy: u8,
}

/// What a closure was made of.
#[derive(Debug, Drop)]
pub enum Origin {
    /// A closure that is written in a script, with the places of the variables that it captures.
    Written {
        body: BodyId,
        /// 1 where the closure has `it`.
        parameters: usize,
        owner: Value,
        captured: Items<PlaceId>,
    },
    Bound(Bound),
}

/// A closure that is made of others, or of a method.
#[derive(Debug, Drop)]
pub enum Bound {
    /// With arguments from the place `at` on.
    Curried {
        of: ObjId,
        at: usize,
        args: Items<Value>,
    },
    /// With the last arguments.
    CurriedLast {
        of: ObjId,
        args: Items<Value>,
    },
    Composed {
        first: ObjId,
        then: ObjId,
    },
    /// The methods of a name on a value, looked up at each call.
    Method {
        receiver: Value,
        name: Name,
    },
}

/// A closure behind a pointer, so that other objects stay small. Contracts see the closure.
#[derive(Debug, Drop)]
pub struct ClosureBox {
    inner: Box<Closure>,
}

impl Model for ClosureBox {
    ghost use Rattle.gv_heap.specs.declared.closure.Closure.{Closure};

    ghost Value = { Closure };

    ghost view = { λ b. b.inner.value };
}

impl ClosureBox {
    /// The closure itself.
    pub fn get(&self) -> &Closure
        ensures { result.now ≡ self.now }
    {
        &self.inner
    }

    pub(crate) fn new(alloc: Global, closure: Closure) -> Result<ClosureBox, OutOfMemory>
        ensures { IfOk result (λ b. b ≡ closure) }
    {
        Ok(ClosureBox {
            inner: Box::new(alloc, closure)?,
        })
    }

    pub(crate) fn set_delegate(&mut self, delegate: Value)
        ensures { self.new ≡ record self.old { delegate = delegate } }
    {
        self.inner.delegate = delegate;
    }

    pub(crate) fn set_strategy(&mut self, strategy: u8)
        ensures { self.new ≡ record self.old { strategy = strategy } }
    {
        self.inner.strategy = strategy;
    }
}

impl Origin {
    ghost use Rattle.gv_heap.specs.Prices.{closure_price};

    /// What a closure and a copy of it cost.
    pub(crate) fn price(&self) -> u64
        ensures { result ≡ closure_price self.now }
    {
        match self {
            Origin::Written { captured, .. } => 1 + captured.as_slice().len() as u64,
            Origin::Bound(_) => 1,
        }
    }

    pub(crate) fn copy(&self, alloc: Global) -> Result<Origin, OutOfMemory>
        ensures { IfOk result (λ copy. copy ≡ self.now) }
    {
        match self {
            Origin::Written {
                body,
                parameters,
                owner,
                captured,
            } => Ok(Origin::Written {
                body: *body,
                parameters: *parameters,
                owner: *owner,
                captured: Items::from_slice(alloc, captured.as_slice())?,
            }),
            Origin::Bound(bound) => Ok(Origin::Bound(bound.copy(alloc)?)),
        }
    }
}

impl Bound {
    ghost use Rattle.gv_heap.specs.Kinds.{owner_of};

    /// The owner of a closure that is made so.
    pub fn owner(&self) -> Value
        ensures { result ≡ owner_of self.now }
    {
        match self {
            Bound::Curried { of, .. } | Bound::CurriedLast { of, .. } => Value::Obj(*of),
            Bound::Composed { first, .. } => Value::Obj(*first),
            Bound::Method { receiver, .. } => *receiver,
        }
    }

    fn copy(&self, alloc: Global) -> Result<Bound, OutOfMemory>
        ensures { IfOk result (λ copy. copy ≡ self.now) }
    {
        match self {
            Bound::Curried { of, at, args } => Ok(Bound::Curried {
                of: *of,
                at: *at,
                args: Items::from_slice(alloc, args.as_slice())?,
            }),
            Bound::CurriedLast { of, args } => Ok(Bound::CurriedLast {
                of: *of,
                args: Items::from_slice(alloc, args.as_slice())?,
            }),
            Bound::Composed { first, then } => Ok(Bound::Composed {
                first: *first,
                then: *then,
            }),
            Bound::Method { receiver, name } => Ok(Bound::Method {
                receiver: *receiver,
                name: *name,
            }),
        }
    }
}
