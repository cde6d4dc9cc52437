// What files in memory hold: their names and bytes.
ghost use Rattle.std.specs.Prelude.{◌≡◌, ◌-◌, length, drop, take, min};
ghost use Rattle.gv_outside.specs.Files.{content_of, has_file};
ghost use Rattle.gv_outside.specs.Sure.{entries_of};

/// Whether a file of a name is there.
pub(crate) fn has_entry(files: &[(String, Vec<u8>)], name: &str) -> bool
    ensures { result ≡ has_file (entries_of files.now) name.now }
{
    for (entry, _) in files {
        if entry.as_str() == name {
            return true;
        }
    }
    false
}

/// The bytes of the first file of a name, none where it isn't there.
pub(crate) fn content<'a>(files: &'a [(String, Vec<u8>)], name: &str) -> &'a [u8]
    ensures { result.now ≡ content_of (entries_of files.now) name.now }
{
    for (entry, bytes) in files {
        if entry.as_str() == name {
            return bytes.as_slice();
        }
    }
    &[]
}

/// Copies what a buffer holds of the bytes from a place on, and answers how many these are.
pub(crate) fn copy_from(bytes: &[u8], place: usize, into: &mut [u8]) -> usize
    ensures count { result ≡ min (length bytes.now - place) (length into.old) }
    ensures copied { take result into.new ≡ take result (drop place bytes.now) }
{
    if bytes.len() <= place {
        return 0;
    }
    let count = (bytes.len() - place).min(into.len());
    into[..count].copy_from_slice(&bytes[place..place + count]);
    count
}
