//! The code of a unit while it is written.

ghost use Rattle.std.specs.Prelude.{◌≡◌, IfOk, OnErr, OnOk};
ghost use Rattle.gv_code.specs.Built.{finished, nothing, with_body, with_value};

use crate::code::{Body, Code, OperandKind};
use crate::piece::Item;
use gv_base::{BodyId, OutOfMemory};
use sqlite_items::Items;
use std::alloc::Global;
use std::marker::Model;

/// The bodies that are done, and the items of the next one, with the kinds of the operands behind them.
#[derive(Debug, Drop)]
pub struct CodeBuilder {
    bodies: Items<Body>,
    items: Items<Item>,
    shape: Items<OperandKind>,
    // None yet; made with the others, so that the end takes no memory.
    methods: Items<BodyId>,
    alloc: Global,
}

impl Model for CodeBuilder {
    ghost use Rattle.std.specs.Prelude.{◌≡◌, []};
    ghost use Rattle.gv_code.specs.Built.{Built};

    ghost Value = { Built };

    ghost view = { λ b. record { bodies = b.bodies; items = b.items; shape = b.shape } };

    ghost invariant = { λ b. b.methods ≡ [] };
}

impl CodeBuilder {
    pub fn new(alloc: Global) -> CodeBuilder
        ensures { result ≡ nothing }
    {
        CodeBuilder {
            bodies: Items::new(alloc),
            items: Items::new(alloc),
            shape: Items::new(alloc),
            methods: Items::new(alloc),
            alloc,
        }
    }

    /// The kinds of the operands behind what is written, the top first.
    pub fn shape(&self) -> &[OperandKind]
        ensures { result.now ≡ self.now.shape }
    {
        self.shape.as_slice()
    }

    /// The items of the next body, as far as it is written.
    pub fn items(&self) -> &[Item]
        ensures { result.now ≡ self.now.items }
    {
        self.items.as_slice()
    }

    /// Writes items that leave one value more.
    pub fn push_value(&mut self, items: Items<Item>) -> Result<(), OutOfMemory>
        ensures { OnOk result (self.new ≡ with_value items self.old) }
    {
        let mut shape = Items::new(self.alloc);
        shape.push(OperandKind::Value)?;
        shape.append(Items::from_slice(self.alloc, self.shape.as_slice())?)?;
        self.items.append(items)?;
        self.shape = shape;
        Ok(())
    }

    /// One more body that is done. The builder stays as it was where memory is wanting.
    pub fn push_body(&mut self, body: Body) -> Result<(), OutOfMemory>
        ensures ok { OnOk result (self.new ≡ with_body body self.old) }
        ensures err { OnErr result (self.new ≡ self.old) }
    {
        self.bodies.push(body)?;
        Ok(())
    }

    /// The code of the bodies that are done, of which the first starts the run.
    pub fn finish(self) -> Code
        ensures { result ≡ finished self }
    {
        let CodeBuilder {
            bodies,
            methods,
            ..
        } = self;
        Code {
            bodies,
            methods,
            start: 0,
        }
    }
}
