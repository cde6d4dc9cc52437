ghost use Rattle.std.specs.Prelude.{◌≡◌, false, Some, None};
ghost use Rattle.gv_outside.specs.Sure.{entries_of};

use crate::entries::{content, copy_from};
use crate::files::{Failed, Files};

/// Files in memory, which never fail. A name that isn't there has an empty file.
#[derive(Drop)]
pub struct SureFiles {
    files: Vec<(String, Vec<u8>)>,
    name: Option<String>,
    place: usize,
}

impl SureFiles {
    ghost use Rattle.gv_outside.specs.SureFiles.{state_of};

    /// Files with these names and contents.
    pub fn new(files: Vec<(String, Vec<u8>)>) -> SureFiles
        ensures { state_of result ≡ record { contents = Some (entries_of files.items); opened = None; place = 0; faults = 0; named = None; failed = false } }
    {
        SureFiles {
            files,
            name: None,
            place: 0,
        }
    }
}

impl Files for SureFiles {
    ghost use Rattle.gv_outside.specs.SureFiles.{state_of};

    ghost state = { state_of };

    fn open_file(&mut self, name: String) -> Result<(), Failed> {
        self.name = Some(name);
        self.place = 0;
        Ok(())
    }

    fn read(&mut self, into: &mut [u8]) -> Result<usize, Failed> {
        let place = self.place;
        let Some(name) = &self.name else {
            return Ok(0);
        };
        let bytes = content(self.files.as_slice(), name.as_str());
        let count = copy_from(bytes, place, into);
        self.place = place + count;
        Ok(count)
    }
}
