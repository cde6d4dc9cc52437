// What calls of the real machine come to.
ghost use Rattle.std.specs.Prelude.{◌≡◌, ◌≢◌, Ok, Some, None, IsErr, IsSomeAnd, IfOk, IfErr};
ghost use Rattle.std.specs.IoError.{error_kind};

use crate::files::Failed;
use std::io;
use std::io::ErrorKind;

/// How often an interrupted call is made again.
pub(crate) const MOST_RETRIES: u32 = 1_000;

/// What a call came to, none where it was interrupted and is to be made again.
pub(crate) fn settled<T>(answer: io::Result<T>) -> Option<Result<T, Failed>>
    ensures ok { IfOk answer (λ value. result ≡ Some (Ok value)) }
    ensures interrupted { IfErr answer (λ error. error_kind error ≡ ErrorKind.Interrupted → result ≡ None) }
    ensures fault { IfErr answer (λ error. error_kind error ≢ ErrorKind.Interrupted → IsSomeAnd result (λ outcome. IsErr outcome)) }
{
    match answer {
        Ok(value) => Some(Ok(value)),
        Err(error) if error.kind() == ErrorKind::Interrupted => None,
        Err(_) => Some(Err(Failed)),
    }
}
