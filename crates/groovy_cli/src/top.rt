ghost use Rattle.std.specs.Prelude.{◌≡◌, map, string_bytes};
ghost use Rattle.groovy_cli.specs.Program.{word_at};
ghost use Rattle.groovy_cli.specs.Top.{outside, Means, IsComplete, HasRun, IsRefused, IsUsage, IsTooLong, IsUnread, IsUnwritten, IsWanting, IsKept};

use crate::answer::{Answer, answer_to};
use crate::report::give;
use gv_base::Steps;
use gv_outside::{Files, Sink};
use gv_words::read_words;
use std::alloc::Global;
use std::sync::ledger::Ledger;

/// The status for want of memory.
pub const WANT_OF_MEMORY: u8 = 71;

/// Runs the script that the words name, and answers the status with which the program ends.
///
/// `words` are those behind the program's name, and `looks` counts fresh look-ups, of which there
/// are none yet. The clauses say of each status when it comes and what is written with it; the
/// program meaning is `IsOutcome`.
pub fn groovy<F: Files, O: Sink, E: Sink, L: Ledger>(
    alloc: Global,
    words: &[String],
    files: &mut F,
    out: &mut O,
    err: &mut E,
    looks: &mut Steps<L>,
) -> u8
    ensures meaning { Means (map string_bytes words.now)
        (outside (F.state files.old) (O.state out.old) (E.state err.old))
        (outside (F.state files.new) (O.state out.new) (E.state err.new)) result }
    ensures complete { IsComplete
        (outside (F.state files.old) (O.state out.old) (E.state err.old))
        (outside (F.state files.new) (O.state out.new) (E.state err.new)) result }
    ensures run { HasRun (map string_bytes words.now)
        (outside (F.state files.old) (O.state out.old) (E.state err.old))
        (outside (F.state files.new) (O.state out.new) (E.state err.new)) result }
    ensures refused { IsRefused (map string_bytes words.now)
        (outside (F.state files.old) (O.state out.old) (E.state err.old))
        (outside (F.state files.new) (O.state out.new) (E.state err.new)) result }
    ensures usage { IsUsage (map string_bytes words.now)
        (outside (F.state files.old) (O.state out.old) (E.state err.old))
        (outside (F.state files.new) (O.state out.new) (E.state err.new)) result }
    ensures too_long { IsTooLong (map string_bytes words.now)
        (outside (F.state files.old) (O.state out.old) (E.state err.old))
        (outside (F.state files.new) (O.state out.new) (E.state err.new)) result }
    ensures unread { IsUnread (map string_bytes words.now)
        (outside (F.state files.old) (O.state out.old) (E.state err.old))
        (outside (F.state files.new) (O.state out.new) (E.state err.new)) result }
    ensures unwritten { IsUnwritten (map string_bytes words.now)
        (outside (F.state files.old) (O.state out.old) (E.state err.old))
        (outside (F.state files.new) (O.state out.new) (E.state err.new)) result }
    ensures wanting { IsWanting
        (outside (F.state files.old) (O.state out.old) (E.state err.old))
        (outside (F.state files.new) (O.state out.new) (E.state err.new)) result }
    ensures kept { IsKept
        (outside (F.state files.old) (O.state out.old) (E.state err.old))
        (outside (F.state files.new) (O.state out.new) (E.state err.new)) }
    ensures looks { looks.new ≡ looks.old }
{
    let Some(reading) = read_words(words) else {
        return give("", &Answer::Usage, out, err);
    };
    let file = word(words, reading.file);
    match answer_to(alloc, file, reading.limits, files) {
        Ok(answer) => give(file, &answer, out, err),
        Err(_) => WANT_OF_MEMORY,
    }
}

/// The word of a place.
fn word(words: &[String], place: usize) -> &str
    ensures { result.now ≡ word_at (map string_bytes words.now) place }
{
    match words.get(place) {
        Some(word) => word.as_str(),
        None => "",
    }
}
