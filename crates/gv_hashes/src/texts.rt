//! The hash of a text.

ghost use Rattle.std.specs.Prelude.{◌≡◌, pos};
ghost use Rattle.std.specs.Str.{chars};
ghost use Rattle.gv_hashes.specs.Rules.{text_hash};

use crate::joins::joined;

pub(crate) fn text_hash(text: &str) -> i32
    ensures { result ≡ text_hash (chars text.now) }
{
    let mut hash = 0;
    for character in text.chars() {
        hash = joined(hash, number_of(character));
    }
    hash
}

fn number_of(character: char) -> i32
    ensures { result ≡ pos character }
{
    u32::from(character).cast_signed()
}
