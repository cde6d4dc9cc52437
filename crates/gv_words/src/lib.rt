//! What the words of the command line ask for: the limits of the run, and the file of the script.
//!
//! The rule: `--ticks`, `--cells` and `--depth` are options. Each stands at most once, before or behind the file, with its value
//! as the next word or behind a `=`. A value is 1 to 20 ASCII digits, zeros in front too, whose number is from 1 up to the limit's
//! most; so no value begins with `-`. A word `--` ends the options: all words behind it are files. Before it a word that begins
//! with `-` is an option or has no reading. The word `-` is never a file. Exactly one word is a file; the empty word may be it.
//! A limit that no option sets has its default: 100,000,000 ticks, 16,000,000 cells, a depth of 4,000.
//!
//! How it is stated: a word is seen as its bytes. `specs/Words.antt` goes over the words one by one by `step`, from an `Asked` to
//! the next, and `reading_of` says what is asked for at the end.
//!
//! The promise: `read_words` gives exactly `reading_of` the words, and None exactly where they have no reading. The file is one of
//! the words, and each limit is at least 1 and at most its most.
//!
//! Where to begin: `asked.rt`, then `words.rt` beside `specs/Words.antt`. A new option that sets a limit is a variant of `Limit`
//! with its field in `Asked`.
#![tactic(auto)]

mod asked;
mod number;
mod words;

pub use asked::Limit;
pub use words::{Reading, read_words};
