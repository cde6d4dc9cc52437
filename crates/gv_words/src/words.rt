//! Word by word, from nothing asked for to a reading.

ghost use Rattle.std.specs.Prelude.{◌≡◌, ◌<◌, IfSome, length, map, option_copied, string_bytes};
ghost use Rattle.gv_words.specs.Words.{AreLimits, finished, limit_named, name_in, reading_of, step, value_in, with_file, with_option, with_value};
ghost use Rattle.gv_words.specs.Words as spec;

use crate::asked::{Asked, Limit};
use crate::number::value_of;
use gv_base::Limits;

/// What the words ask for.
#[derive(Clone, Copy, Debug, PartialEq, Eq)]
pub struct Reading {
    /// What the run may spend.
    pub limits: Limits,
    /// The place of the file among the words, counted from 0.
    pub file: usize,
}

/// What the words ask for, or None where they have no reading.
pub fn read_words(words: &[String]) -> Option<Reading>
    ensures reading { result ≡ reading_of (map string_bytes words.now) }
    ensures within { IfSome result (λ r. r.file < length words.now) }
    ensures limits { IfSome result (λ r. AreLimits r.limits) }
{
    finish(read(words)?)
}

/// What is asked for behind the last word.
fn read(words: &[String]) -> Option<Asked>
    ensures { result ≡ spec.read spec.nothing 0 (map string_bytes words.now) }
{
    let mut asked = Asked::nothing();
    for (place, word) in words.iter().enumerate() {
        asked = step(asked, place, word.as_str())?;
    }
    Some(asked)
}

/// What was asked for, where an option doesn't wait and the file is there.
fn finish(asked: Asked) -> Option<Reading>
    ensures { result ≡ finished asked }
{
    if asked.waits.is_some() {
        return None;
    }
    Some(Reading {
        limits: asked.limits(),
        file: asked.file?,
    })
}

/// What is asked for with one more word.
fn step(asked: Asked, place: usize, word: &str) -> Option<Asked>
    ensures { result ≡ step asked place word.now }
{
    if let Some(limit) = asked.waits {
        return with_value(asked, limit, word);
    }
    if asked.only_files {
        return with_file(asked, place, word);
    }
    if word == "--" {
        return Some(Asked {
            only_files: true,
            ..asked
        });
    }
    match limit_named(name_in(word)) {
        Some(limit) => with_option(asked, limit, value_in(word)),
        None if word.starts_with('-') => None,
        None => with_file(asked, place, word),
    }
}

/// The word is the value that an option waits for.
fn with_value(asked: Asked, limit: Limit, word: &str) -> Option<Asked>
    ensures { result ≡ with_value limit word.now asked }
{
    let number = value_of(limit, word)?;
    Some(Asked {
        waits: None,
        ..asked.with_limit(limit, number)
    })
}

/// The word is an option. Where no value stands behind its `=`, it waits for the next word.
fn with_option(asked: Asked, limit: Limit, value: Option<&str>) -> Option<Asked>
    ensures { result ≡ with_option limit (option_copied value.entry) asked }
{
    if asked.is_set(limit) {
        return None;
    }
    match value {
        Some(text) => Some(asked.with_limit(limit, value_of(limit, text)?)),
        None => Some(Asked {
            waits: Some(limit),
            ..asked
        }),
    }
}

/// The word is the file, where there is none yet.
fn with_file(asked: Asked, place: usize, word: &str) -> Option<Asked>
    ensures { result ≡ with_file place word.now asked }
{
    if asked.file.is_some() || word == "-" {
        None
    } else {
        Some(Asked {
            file: Some(place),
            ..asked
        })
    }
}

/// What stands before the first `=` of a word, or all of it.
fn name_in(word: &str) -> &str
    ensures { result.now ≡ name_in word.now }
{
    match word.split_once('=') {
        Some((name, _)) => name,
        None => word,
    }
}

/// What stands behind the first `=` of a word.
fn value_in(word: &str) -> Option<&str>
    ensures { option_copied result ≡ value_in word.now }
{
    match word.split_once('=') {
        Some((_, value)) => Some(value),
        None => None,
    }
}

/// The limit that the option of this name sets.
fn limit_named(name: &str) -> Option<Limit>
    ensures { result ≡ limit_named name.now }
{
    match name {
        "--ticks" => Some(Limit::Ticks),
        "--cells" => Some(Limit::Cells),
        "--depth" => Some(Limit::Depth),
        _ => None,
    }
}
