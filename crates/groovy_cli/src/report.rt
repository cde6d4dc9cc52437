ghost use Rattle.std.specs.Prelude.{◌≡◌, ℕ, List, OnOk, OnErr};
ghost use Rattle.gv_outside.specs.Count.{HasCause};
ghost use Rattle.gv_outside.specs.Sink.{Takes, TakesPrefix};
ghost use Rattle.groovy_cli.specs.Answers.{outcome};
ghost use Rattle.groovy_cli.specs.Program.{about_line, ending_line, ending_status, parts_line, refusal_line, stopped_line};
ghost use Rattle.groovy_cli.specs.Top.{Given};

use crate::answer::Answer;
use gv_base::Refusal;
use gv_meaning::Why;
use gv_outside::{Failed, Sink, put_all, put_pieces};
use gv_simulate::Ending;
use itoa::Buffer;

/// The status where a sink failed.
const UNWRITTEN: u8 = 74;

/// Writes what an answer says of a file, and answers its status, or 74 where a sink fails.
pub fn give<O: Sink, E: Sink>(file: &str, answer: &Answer, out: &mut O, err: &mut E) -> u8
    ensures { Given (outcome file.now answer.now)
        (record { out = O.state out.old; err = E.state err.old })
        (record { out = O.state out.new; err = E.state err.new }) result }
{
    if put_all(out, output(answer)).is_err() {
        let _ = put_all(err, b"groovy: cannot write\n");
        return UNWRITTEN;
    }
    match put_line(file, answer, err) {
        Ok(()) => status(answer),
        Err(Failed) => UNWRITTEN,
    }
}

/// The bytes for `out`.
fn output(answer: &Answer) -> &[u8]
    ensures { (file : List ℕ) → result.now ≡ (outcome file answer.now).output }
{
    match answer {
        Answer::Ran(report) => report.output.as_slice(),
        _ => &[],
    }
}

fn status(answer: &Answer) -> u8
    ensures { (file : List ℕ) → result ≡ (outcome file answer.now).status }
{
    match answer {
        Answer::Usage => 64,
        Answer::Unread => 66,
        Answer::TooLong => 65,
        Answer::Refused(_) => 2,
        Answer::Ran(report) => ending_status(&report.ending),
    }
}

/// The status that tells how a run ended.
fn ending_status(ending: &Ending) -> u8
    ensures { result ≡ ending_status ending.now }
{
    match ending {
        Ending::Value => 0,
        Ending::Uncaught(_) => 1,
        Ending::Stopped(Why::Ticks) => 3,
        Ending::Stopped(Why::Cells) => 4,
        Ending::Stopped(Why::Depth) => 5,
    }
}

/// Puts the line for `err`.
fn put_line<E: Sink>(file: &str, answer: &Answer, err: &mut E) -> Result<(), Failed>
    ensures ok { OnOk result (Takes (E.state err.old) (outcome file.now answer.now).line (E.state err.new)) }
    ensures err { OnErr result (TakesPrefix (E.state err.old) (outcome file.now answer.now).line (E.state err.new)) }
    ensures cause { HasCause (E.state err.old).faults (E.state err.new).faults result }
{
    match answer {
        Answer::Usage => put_all(err, USAGE),
        Answer::Unread => put_about(b"groovy: cannot read: ", file, err),
        Answer::TooLong => put_about(b"groovy: file too long: ", file, err),
        Answer::Refused(refusal) => put_refusal(file, *refusal, err),
        Answer::Ran(report) => put_ending(&report.ending, err),
    }
}

/// Puts the line that tells how a run ended; nothing, where it ended with a value.
fn put_ending<E: Sink>(ending: &Ending, err: &mut E) -> Result<(), Failed>
    ensures ok { OnOk result (Takes (E.state err.old) (ending_line ending.now) (E.state err.new)) }
    ensures err { OnErr result (TakesPrefix (E.state err.old) (ending_line ending.now) (E.state err.new)) }
    ensures cause { HasCause (E.state err.old).faults (E.state err.new).faults result }
{
    match ending {
        Ending::Value => put_all(err, b""),
        Ending::Uncaught(text) => put_about(b"Caught: ", text.as_str(), err),
        Ending::Stopped(why) => put_all(err, stopped_line(*why)),
    }
}

fn stopped_line(why: Why) -> &'static [u8]
    ensures { result.now ≡ stopped_line why }
{
    match why {
        Why::Ticks => b"Stopped: ticks\n",
        Why::Cells => b"Stopped: cells\n",
        Why::Depth => b"Stopped: depth\n",
    }
}

const USAGE: &[u8] =
    b"usage: groovy [--ticks N] [--cells N] [--depth N] [--result] [--show WHAT] FILE.. | --work SEED:SIZE\n";

/// Puts a message about a file.
fn put_about<'a, E: Sink>(message: &'a [u8], file: &'a str, err: &mut E) -> Result<(), Failed>
    ensures ok { OnOk result (Takes (E.state err.old) (about_line message.now file.now) (E.state err.new)) }
    ensures err { OnErr result (TakesPrefix (E.state err.old) (about_line message.now file.now) (E.state err.new)) }
    ensures cause { HasCause (E.state err.old).faults (E.state err.new).faults result }
{
    put_pieces(err, &[message, file.as_bytes(), b"\n"])
}

/// Puts `FILE:LINE:COLUMN: refused KIND: TEXT`.
fn put_refusal<E: Sink>(file: &str, refusal: Refusal, err: &mut E) -> Result<(), Failed>
    ensures ok { OnOk result (Takes (E.state err.old) (refusal_line file.now refusal) (E.state err.new)) }
    ensures err { OnErr result (TakesPrefix (E.state err.old) (refusal_line file.now refusal) (E.state err.new)) }
    ensures cause { HasCause (E.state err.old).faults (E.state err.new).faults result }
{
    let (mut line, mut column, mut kind) = (Buffer::new(), Buffer::new(), Buffer::new());
    put_parts(
        file,
        line.format(refusal.place.line),
        column.format(refusal.place.column),
        kind.format(refusal.kind.number()),
        refusal.kind.text(),
        err,
    )
}

/// Puts the parts of a refusal's line with what stands between them.
fn put_parts<'a, E: Sink>(
    file: &'a str,
    line: &'a str,
    column: &'a str,
    kind: &'a str,
    text: &'a str,
    err: &mut E,
) -> Result<(), Failed>
    ensures ok { OnOk result (Takes (E.state err.old) (parts_line file.now line.now column.now kind.now text.now) (E.state err.new)) }
    ensures err { OnErr result (TakesPrefix (E.state err.old) (parts_line file.now line.now column.now kind.now text.now) (E.state err.new)) }
    ensures cause { HasCause (E.state err.old).faults (E.state err.new).faults result }
{
    let pieces = [
        file.as_bytes(),
        b":",
        line.as_bytes(),
        b":",
        column.as_bytes(),
        b": refused ",
        kind.as_bytes(),
        b": ",
        text.as_bytes(),
        b"\n",
    ];
    put_pieces(err, &pieces)
}
