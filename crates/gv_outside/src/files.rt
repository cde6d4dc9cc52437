ghost use Rattle.std.specs.Prelude.{◌≡◌, ◌≢◌, ◌+◌, ◌<◌, ◌≤◌, length, Some, None, true, OnOk, OnErr, IfOk, string_bytes, is_err};
ghost use Rattle.gv_outside.specs.Count.{HasCause, HasRisen};
ghost use Rattle.gv_outside.specs.Files.{FilesState, Reads, ReadsOnto, KeepsFile, Contents, content_of};

use std::alloc::Global;
use thiserror::Error;

/// A file couldn't be opened or read, or a piece couldn't be written.
#[derive(Clone, Copy, Debug, PartialEq, Eq, Error)]
#[error("a file or a sink failed")]
pub struct Failed;

/// Files, of which one is open at a time.
pub trait Files {
    ghost state: { Self → FilesState };

    /// Opens the file of a name, at its start.
    fn open_file(&mut self, name: String) -> Result<(), Failed>
        ensures opened { OnOk result ((state self.new).opened ≡ Some (string_bytes name)) }
        ensures closed { OnErr result ((state self.new).opened ≡ None) }
        ensures place { (state self.new).place ≡ 0 }
        ensures contents { (state self.new).contents ≡ (state self.old).contents }
        ensures named { (state self.new).named ≡ Some (string_bytes name) }
        ensures failed { (state self.new).failed ≡ is_err result }
        ensures cause { HasCause (state self.old).faults (state self.new).faults result };

    /// Reads the next bytes into the start of `into`, and answers how many. 0 is the end.
    fn read(&mut self, into: &mut [u8]) -> Result<usize, Failed>
        ensures reads { IfOk result (λ count. Reads (state self.old) into.old count into.new (state self.new)) }
        ensures place { OnErr result ((state self.new).place ≡ (state self.old).place) }
        ensures kept { KeepsFile (state self.old) (state self.new) }
        ensures failed { (state self.new).failed ≡ is_err result }
        ensures cause { HasCause (state self.old).faults (state self.new).faults result };
}

/// Why a file wasn't read whole.
#[derive(Debug, Drop, PartialEq, Eq, Error)]
pub enum ReadError {
    #[error("the file couldn't be read")]
    Failed,
    #[error("the file is too long")]
    TooLong,
    #[error("out of memory")]
    OutOfMemory,
}

/// The most bytes that a file may have.
pub const MOST_BYTES: usize = 1_048_576;

/// Reads a file whole.
pub fn read_whole<F: Files>(
    alloc: Global,
    files: &mut F,
    name: String,
) -> Result<Vec<u8>, ReadError>
    ensures whole { IfOk result (λ bytes. (contents : Contents) → (F.state files.old).contents ≡ Some contents → bytes.items ≡ content_of contents (string_bytes name)) }
    ensures place { IfOk result (λ bytes. (F.state files.new).place ≡ length bytes.items) }
    ensures short { IfOk result (λ bytes. length bytes.items ≤ MOST_BYTES) }
    ensures reach { (F.state files.new).place ≤ MOST_BYTES + 1 }
    ensures too_long { result ≡ Err ReadError.TooLong → (F.state files.new).place ≡ MOST_BYTES + 1 }
    ensures longer { result ≡ Err ReadError.TooLong → (contents : Contents) → (F.state files.old).contents ≡ Some contents → MOST_BYTES < length (content_of contents (string_bytes name)) }
    ensures failed { result ≡ Err ReadError.Failed → HasRisen (F.state files.old).faults (F.state files.new).faults × ((F.state files.new).failed ≡ true) }
    ensures sure { result ≢ Err ReadError.Failed → (F.state files.new).faults ≡ (F.state files.old).faults }
    ensures named { (F.state files.new).named ≡ Some (string_bytes name) }
    ensures contents { (F.state files.new).contents ≡ (F.state files.old).contents }
{
    if files.open_file(name).is_err() {
        return Err(ReadError::Failed);
    }
    let mut bytes = Vec::new(alloc);
    'pieces: while bytes.len() <= MOST_BYTES {
        let room = MOST_BYTES + 1 - bytes.len();
        if read_piece(files, &mut bytes, room)? == 0 {
            return Ok(bytes);
        }
    }
    Err(ReadError::TooLong)
}

/// Reads a piece of at most `room` bytes onto the end of those that were read.
fn read_piece<F: Files>(files: &mut F, bytes: &mut Vec<u8>, room: usize) -> Result<usize, ReadError>
    requires { 0 < room }
    ensures reads { IfOk result (λ count. ReadsOnto (F.state files.old) bytes.old.items room count bytes.new.items (F.state files.new)) }
    ensures reach { OnErr result ((F.state files.new).place ≤ (F.state files.old).place + room) }
    ensures kept { KeepsFile (F.state files.old) (F.state files.new) }
    ensures failed { result ≡ Err ReadError.Failed → HasRisen (F.state files.old).faults (F.state files.new).faults × ((F.state files.new).failed ≡ true) }
    ensures sure { result ≢ Err ReadError.Failed → (F.state files.new).faults ≡ (F.state files.old).faults }
    ensures causes { result ≢ Err ReadError.TooLong }
{
    let mut buffer = [0u8; 4096];
    let want = room.min(4096);
    let Ok(count) = files.read(&mut buffer[..want]) else {
        return Err(ReadError::Failed);
    };
    if bytes.extend_from_slice(&buffer[..count]).is_err() {
        return Err(ReadError::OutOfMemory);
    }
    Ok(count)
}
