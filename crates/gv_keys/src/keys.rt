ghost use Rattle.std.specs.Prelude.{◌≡◌, [], not, IfOk, OnOk};
ghost use Rattle.gv_keys.specs.Keys as spec;

use gv_base::OutOfMemory;
use gv_classes::{Member, MemberKind, REST};
use indexmap::IndexSet;
use std::alloc::Global;
use std::marker::Model;

/// The keys of the members of a class so far, the first one first.
#[derive(Drop)]
pub struct Keys {
    keys: IndexSet<Vec<usize>>,
}

impl Model for Keys {
    ghost use Rattle.std.specs.Prelude.{List, ℕ, map};

    ghost Value = { List (List ℕ) };

    ghost view = { λ k. map (λ v. v.items) k.keys.keys };
}

impl Keys {
    /// No keys.
    pub fn new(alloc: Global) -> Keys
        ensures { result ≡ [] }
    {
        Keys {
            keys: IndexSet::new(alloc),
        }
    }

    /// Puts a key behind the others; whether it is new.
    pub fn put(&mut self, key: Vec<usize>) -> Result<bool, OutOfMemory>
        ensures is_new { IfOk result (λ is_new. is_new ≡ not (spec.is_there self.old key.items)) }
        ensures put { OnOk result (self.new ≡ spec.with_key self.old key.items) }
    {
        let is_new = self.keys.insert(key)?;
        Ok(is_new)
    }

    /// Puts the keys of members behind the others.
    pub fn put_members(&mut self, alloc: Global, members: &[Member]) -> Result<(), OutOfMemory>
        ensures { OnOk result (self.new ≡ spec.with_members self.old members.now) }
    {
        for member in members {
            self.put(key(alloc, member)?)?;
        }
        Ok(())
    }
}

/// What tells a member of a class from others.
pub fn key(alloc: Global, member: &Member) -> Result<Vec<usize>, OutOfMemory>
    ensures { IfOk result (λ k. k.items ≡ spec.key member.now) }
{
    let mut key = Vec::new(alloc);
    match member.kind {
        MemberKind::Field => {
            key.push(0)?;
            key.push(member.name)?;
            return Ok(key);
        }
        MemberKind::Method => key.push(1)?,
        MemberKind::Constructor => key.push(2)?,
    }
    key.push(member.name)?;
    key.push((member.flags & REST) as usize)?;
    key.extend_from_slice(member.types.as_slice())?;
    Ok(key)
}
