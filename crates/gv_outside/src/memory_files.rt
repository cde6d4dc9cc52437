ghost use Rattle.std.specs.Prelude.{◌≡◌, ℕ, List, ◌-◌, ◌↔◌, ◌⊎◌, length, min, Some, None, false, string_bytes, is_err, IfOk, IsErr, OnOk, OnErr, Contains};
ghost use Rattle.gv_outside.specs.Count.{HasCause, one_more};
ghost use Rattle.gv_outside.specs.Files.{Reads, KeepsFile, content_of, has_file};
ghost use Rattle.gv_outside.specs.Sure.{entries_of};

use crate::entries::{content, copy_from, has_entry};
use crate::files::{Failed, Files};
use std::marker::Model;

/// Files in memory, which fail at the calls whose numbers from 1 are listed, and at opening a name
/// that isn't there.
#[derive(Drop)]
pub struct MemoryFiles {
    files: Vec<(String, Vec<u8>)>,
    name: Option<String>,
    is_open: bool,
    place: usize,
    faults: u64,
    failed: bool,
    fails: Vec<u64>,
    calls: u64,
}

impl Model for MemoryFiles {
    ghost use Rattle.std.specs.Prelude.{option_map, string_bytes};
    ghost use Rattle.gv_outside.specs.Sure.{entries_of};
    ghost use Rattle.gv_outside.specs.MemoryFilesView.{MemoryFilesView};

    ghost Value = { MemoryFilesView };

    ghost view = { λ s. record { contents = entries_of s.files.items; named = option_map string_bytes s.name; is_open = s.is_open; place = s.place; faults = s.faults; failed = s.failed; fails = s.fails.items; calls = s.calls } };
}

impl MemoryFiles {
    /// Files with these names and contents, none of them open.
    pub fn new(files: Vec<(String, Vec<u8>)>, fails: Vec<u64>) -> MemoryFiles
        ensures { result ≡ record { contents = entries_of files.items; named = None; is_open = false; place = 0; faults = 0; failed = false; fails = fails.items; calls = 0 } }
    {
        MemoryFiles {
            files,
            name: None,
            is_open: false,
            place: 0,
            faults: 0,
            failed: false,
            fails,
            calls: 0,
        }
    }
}

impl Files for MemoryFiles {
    ghost use Rattle.gv_outside.specs.MemoryFilesView.{memory_files_told};

    ghost state = { memory_files_told };

    fn open_file(&mut self, name: String) -> Result<(), Failed>
        ensures fails { IsErr result ↔ (Contains self.old.fails (one_more self.old.calls) ⊎ (has_file self.old.contents (string_bytes name) ≡ false)) }
        ensures held { self.new.contents ≡ self.old.contents }
        ensures listed { self.new.fails ≡ self.old.fails }
        ensures counted { self.new.calls ≡ one_more self.old.calls }
        ensures opened { OnOk result ((memory_files_told self.new).opened ≡ Some (string_bytes name)) }
        ensures closed { OnErr result ((memory_files_told self.new).opened ≡ None) }
        ensures place { (memory_files_told self.new).place ≡ 0 }
        ensures contents { (memory_files_told self.new).contents ≡ (memory_files_told self.old).contents }
        ensures named { (memory_files_told self.new).named ≡ Some (string_bytes name) }
        ensures failed { (memory_files_told self.new).failed ≡ is_err result }
        ensures cause { HasCause (memory_files_told self.old).faults (memory_files_told self.new).faults result }
    {
        self.calls = self.calls.saturating_add(1);
        self.place = 0;
        let is_listed = self.fails.contains(&self.calls);
        let is_there = has_entry(self.files.as_slice(), name.as_str());
        self.name = Some(name);
        if is_listed || !is_there {
            self.is_open = false;
            self.failed = true;
            self.faults = self.faults.saturating_add(1);
            return Err(Failed);
        }
        self.is_open = true;
        self.failed = false;
        Ok(())
    }

    fn read(&mut self, into: &mut [u8]) -> Result<usize, Failed>
        ensures fails { IsErr result ↔ Contains self.old.fails (one_more self.old.calls) }
        ensures all { IfOk result (λ count. (name : List ℕ) → (memory_files_told self.old).opened ≡ Some name → count ≡ min (length (content_of self.old.contents name) - self.old.place) (length into.old)) }
        ensures held { self.new.contents ≡ self.old.contents }
        ensures listed { self.new.fails ≡ self.old.fails }
        ensures counted { self.new.calls ≡ one_more self.old.calls }
        ensures reads { IfOk result (λ count. Reads (memory_files_told self.old) into.old count into.new (memory_files_told self.new)) }
        ensures place { OnErr result ((memory_files_told self.new).place ≡ (memory_files_told self.old).place) }
        ensures kept { KeepsFile (memory_files_told self.old) (memory_files_told self.new) }
        ensures failed { (memory_files_told self.new).failed ≡ is_err result }
        ensures cause { HasCause (memory_files_told self.old).faults (memory_files_told self.new).faults result }
    {
        self.calls = self.calls.saturating_add(1);
        self.failed = self.fails.contains(&self.calls);
        if self.failed {
            self.faults = self.faults.saturating_add(1);
            return Err(Failed);
        }
        let place = self.place;
        let Some(name) = &self.name else {
            return Ok(0);
        };
        if !self.is_open {
            return Ok(0);
        }
        let bytes = content(self.files.as_slice(), name.as_str());
        let count = copy_from(bytes, place, into);
        self.place = place + count;
        Ok(count)
    }
}
