ghost use Rattle.std.specs.Prelude.{◌≡◌, ◌≤◌, length, None, false, IfOk};

use crate::files::{Failed, Files};
use crate::machine::{MOST_RETRIES, settled};
use std::fs;
use std::io::Read;
use std::marker::Model;
use std::rt::Files as FileSystem;

/// The files of the real machine. They tell no contents.
#[derive(Drop)]
pub struct HostFiles<'a, R: FileSystem> {
    rt: &'a R,
    file: Option<R::File>,
    name: Option<String>,
    place: u64,
    faults: u64,
    failed: bool,
}

impl<'a, R: FileSystem> Model for HostFiles<'a, R> {
    ghost use Rattle.std.specs.Prelude.{None, is_some, IsSome, option_map, string_bytes, if◌then◌else◌};
    ghost use Rattle.gv_outside.specs.Files.{FilesState};

    ghost Value = { FilesState };

    ghost view = { λ s. record { contents = None; opened = if is_some s.file then option_map string_bytes s.name else None; place = s.place; faults = s.faults; named = option_map string_bytes s.name; failed = s.failed } };

    ghost invariant = { λ s. IsSome s.file → IsSome s.name };
}

impl<'a, R: FileSystem> HostFiles<'a, R> {
    /// The files that a runtime reaches, none of them open.
    pub fn new(rt: &'a R) -> HostFiles<'a, R>
        ensures { result ≡ record { contents = None; opened = None; place = 0; faults = 0; named = None; failed = false } }
    {
        HostFiles {
            rt,
            file: None,
            name: None,
            place: 0,
            faults: 0,
            failed: false,
        }
    }

    /// How many calls failed.
    pub fn faults(&self) -> u64
        ensures { result ≡ self.now.faults }
    {
        self.faults
    }
}

impl<R: FileSystem> Files for HostFiles<'_, R> {
    ghost state = { λ files. files };

    fn open_file(&mut self, name: String) -> Result<(), Failed> {
        let opened = open(self.rt, name.as_str());
        self.name = Some(name);
        self.place = 0;
        let Ok(file) = opened else {
            self.file = None;
            self.failed = true;
            self.faults = self.faults.saturating_add(1);
            return Err(Failed);
        };
        self.file = Some(file);
        self.failed = false;
        Ok(())
    }

    fn read(&mut self, into: &mut [u8]) -> Result<usize, Failed> {
        let place = self.place;
        let Some(file) = &mut self.file else {
            self.failed = false;
            return Ok(0);
        };
        let outcome = read_some(file, into);
        self.failed = outcome.is_err();
        match outcome {
            Ok(count) => self.place = place.saturating_add(count as u64),
            Err(_) => self.faults = self.faults.saturating_add(1),
        }
        outcome
    }
}

fn open<R: FileSystem>(rt: &R, name: &str) -> Result<R::File, Failed> {
    for _ in 0..=MOST_RETRIES {
        if let Some(outcome) = settled(fs::open(rt, name)) {
            return outcome;
        }
    }
    Err(Failed)
}

fn read_some<F: Read>(file: &mut F, into: &mut [u8]) -> Result<usize, Failed>
    ensures { IfOk result (λ count. count ≤ length into.new) }
{
    for _ in 0..=MOST_RETRIES {
        if let Some(outcome) = settled(file.read(into)) {
            return outcome;
        }
    }
    Err(Failed)
}
