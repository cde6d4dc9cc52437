ghost use Rattle.std.specs.Prelude.{◌≡◌, ◌<◌};

use crate::top::groovy;
use gv_base::Steps;
use gv_outside::{MemoryFiles, MemorySink, SureFiles, SureSink};
use std::alloc::{AllocError, Global};
use std::marker::Brand;
use std::sync::ledger::{Blank, Ledger};
use std::test::Fail;

/// What a run answers and writes.
#[derive(Drop)]
struct Ended {
    status: u8,
    output: Vec<u8>,
    line: Vec<u8>,
}

/// The files of one script, named `a.groovy`.
fn script_files(alloc: Global, script: &[u8]) -> Result<Vec<(String, Vec<u8>)>, AllocError> {
    let name = String::from_str(alloc, "a.groovy")?;
    Ok(vec![in alloc; (name, script.to_vec(alloc)?)]?)
}

/// Runs a script with these words, over files and sinks that never fail.
fn run<L: Ledger>(
    alloc: Global,
    words: &[&str],
    script: &[u8],
    blank: Blank,
) -> Result<Ended, AllocError>
    requires name { blank.name ≡ L.name }
    requires parts { blank.parts ≡ L.parts }
    requires some { 0 < L.parts }
{
    let mut looks = Steps::<L>::new(blank);
    let mut owned = Vec::new(alloc);
    for word in words {
        owned.push(String::from_str(alloc, word)?)?;
    }
    let mut files = SureFiles::new(script_files(alloc, script)?);
    let mut out = SureSink::new(vec![in alloc; 0; 256]?, 256);
    let mut err = SureSink::new(vec![in alloc; 0; 256]?, 256);
    let status = groovy(
        alloc,
        owned.as_slice(),
        &mut files,
        &mut out,
        &mut err,
        &mut looks,
    );
    Ok(Ended {
        status,
        output: out.written().to_vec(alloc)?,
        line: err.written().to_vec(alloc)?,
    })
}

/// Runs a script over files and sinks that fail at the listed calls.
fn run_failing<L: Ledger>(
    alloc: Global,
    script: &[u8],
    fails: [u64; 3],
    blank: Blank,
) -> Result<Ended, AllocError>
    requires name { blank.name ≡ L.name }
    requires parts { blank.parts ≡ L.parts }
    requires some { 0 < L.parts }
{
    let mut looks = Steps::<L>::new(blank);
    let [at_files, at_out, at_err] = fails;
    let words = vec![in alloc; String::from_str(alloc, "a.groovy")?]?;
    let mut files = MemoryFiles::new(script_files(alloc, script)?, vec![in alloc; at_files]?);
    let mut out = MemorySink::new(vec![in alloc; 0; 256]?, 256, vec![in alloc; at_out]?);
    let mut err = MemorySink::new(vec![in alloc; 0; 256]?, 256, vec![in alloc; at_err]?);
    let status = groovy(
        alloc,
        words.as_slice(),
        &mut files,
        &mut out,
        &mut err,
        &mut looks,
    );
    Ok(Ended {
        status,
        output: out.written().to_vec(alloc)?,
        line: err.written().to_vec(alloc)?,
    })
}

const USAGE: &str =
    "usage: groovy [--ticks N] [--cells N] [--depth N] [--result] [--show WHAT] FILE.. | --work SEED:SIZE\n";

// Want of memory is no answer here, since there is ample memory.
#[test]
fn scripts_print_their_sums(rt: HostRuntime) -> Result<(), Fail> {
    let not_built = "a.groovy:1:1: refused 40: not built yet\n";
    let past = "a.groovy:1:9: refused 6: literal past 64 bits\n";
    let table = [
        ("println 1 + 2", "3\n", "", 0),
        ("println 7 - 2 * 3", "1\n", "", 0),
        ("println 2 - 3 - 4\r\n\nprintln 2*3*4-1", "-5\n23\n", "", 0),
        ("println 2147483647 + 1", "-2147483648\n", "", 0),
        ("println 2147483647 + 1L", "2147483648\n", "", 0),
        (
            "println 9223372036854775807 + 1",
            "-9223372036854775808\n",
            "",
            0,
        ),
        ("", "", "", 0),
        ("println 9223372036854775808", "", past, 2),
        ("println 1\nprintln x", "", not_built, 2),
        ("println", "", not_built, 2),
        ("print 1", "", not_built, 2),
        ("println -1", "", not_built, 2),
        ("println 1, 2", "", not_built, 2),
        ("println(1 + 2)", "3\n", "", 0),
        ("println((7 - 2) * 3); println 1", "15\n1\n", "", 0),
        ("println 7 - (2 - 3)", "8\n", "", 0),
        ("println (1) + 2", "", not_built, 2),
        ("println 7 % 2", "", not_built, 2),
        ("def f() { println 1 }", "", not_built, 2),
        (
            "println 1 +",
            "",
            "a.groovy:1:12: refused 10: unexpected token\n",
            2,
        ),
        (
            "println 1 2",
            "",
            "a.groovy:1:11: refused 10: unexpected token\n",
            2,
        ),
        (
            "println 1 / 2",
            "",
            "a.groovy:1:11: refused 11: plain division\n",
            2,
        ),
        (
            "x\ndo { }",
            "",
            "a.groovy:2:1: refused 12: not in this profile: do\n",
            2,
        ),
        (
            "#!/bin/groovy\nprintln 010 + 0x1F /* one\nline */ - -0b1_0 // 41",
            "41\n",
            "",
            0,
        ),
        ("println 'a${1}'", "a${1}\n", "", 0),
        ("println \"a${1} $b.c\"", "", not_built, 2),
        (
            "println 09 + #",
            "",
            "a.groovy:1:9: refused 5: number outside this profile\n",
            2,
        ),
        (
            "println \"a${",
            "",
            "a.groovy:1:11: refused 9: interpolation not ended\n",
            2,
        ),
        (
            "é /* x",
            "",
            "a.groovy:1:3: refused 3: comment not ended\n",
            2,
        ),
    ];
    for (script, output, line, status) in table {
        let ran = run::<Brand>(rt.alloc(), &["a.groovy"], script.as_bytes(), Blank::new(1))?;
        assert_eq!(rt; ran.status, status, "{script}");
        assert_eq!(rt; ran.output.as_slice(), output.as_bytes(), "{script}");
        assert_eq!(rt; ran.line.as_slice(), line.as_bytes(), "{script}");
    }
    Ok(())
}

#[test]
fn variables_branches_and_loops(rt: HostRuntime) -> Result<(), Fail> {
    let not_built = "a.groovy:1:1: refused 40: not built yet\n";
    let table = [
        ("def n = 3\nn = n + 4\nprintln n * n", "49\n", "", 0),
        (
            "def n = 3; def n = 4",
            "",
            "a.groovy:1:16: refused 20: name declared twice\n",
            2,
        ),
        (
            "def x = 1\ndef f = { -> def x = 2 }",
            "",
            "a.groovy:2:18: refused 20: name declared twice\n",
            2,
        ),
        (
            "import java.util.List",
            "",
            "a.groovy:1:1: refused 22: import outside this profile\n",
            2,
        ),
        (
            "break",
            "",
            "a.groovy:1:1: refused 28: nothing to leave\n",
            2,
        ),
        ("n = 3", "", not_built, 2),
        ("if (true) { def n = 1 }\nprintln n", "", not_built, 2),
        ("def println = 1\nprintln 2", "", not_built, 2),
        (
            "if (1 < 2) { println 'a' } else { println 'b' }",
            "a\n",
            "",
            0,
        ),
        (
            "def n = 2\nif (n != 2) println 'a'\nelse if (n >= 3) println 'b'\nelse { def m = n * 3L; println m }",
            "6\n",
            "",
            0,
        ),
        (
            "def n = 9\nwhile (n > 0) { n -= 2; if (n == 5) continue; if (n <= 1) break; println n }\nprintln n",
            "7\n3\n1\n",
            "",
            0,
        ),
    ];
    for (script, output, line, status) in table {
        let ran = run::<Brand>(rt.alloc(), &["a.groovy"], script.as_bytes(), Blank::new(1))?;
        assert_eq!(rt; ran.status, status, "{script}");
        assert_eq!(rt; ran.output.as_slice(), output.as_bytes(), "{script}");
        assert_eq!(rt; ran.line.as_slice(), line.as_bytes(), "{script}");
    }
    Ok(())
}

// A turn, a test, a text and a sum take a tick each.
#[test]
fn ticks_are_spent(rt: HostRuntime) -> Result<(), Fail> {
    let counted = "def n = 3\nwhile (n > 0) { println n; n = n - 1 }";
    let endless = "while (true) { println 'x' }";
    let table = [
        ("14", counted, "3\n2\n1\n", "", 0),
        ("13", counted, "3\n2\n1\n", "Stopped: ticks\n", 3),
        ("5", counted, "3\n", "Stopped: ticks\n", 3),
        ("5", endless, "x\nx\n", "Stopped: ticks\n", 3),
        ("1", endless, "", "Stopped: ticks\n", 3),
        ("1", "println 1", "1\n", "", 0),
        ("0", "println 1", "", USAGE, 64),
        ("1000000000001", "println 1", "", USAGE, 64),
    ];
    for (ticks, script, output, line, status) in table {
        let words = ["--ticks", ticks, "a.groovy"];
        let ran = run::<Brand>(rt.alloc(), &words, script.as_bytes(), Blank::new(1))?;
        assert_eq!(rt; ran.status, status, "{script}");
        assert_eq!(rt; ran.output.as_slice(), output.as_bytes(), "{script}");
        assert_eq!(rt; ran.line.as_slice(), line.as_bytes(), "{script}");
    }
    Ok(())
}

#[test]
fn words_without_a_reading_and_long_files(rt: HostRuntime) -> Result<(), Fail> {
    let many: [&[&str]; 4] = [&[], &["a", "b"], &["-"], &["--help"]];
    for words in many {
        let ran = run::<Brand>(rt.alloc(), words, b"println 1", Blank::new(1))?;
        assert_eq!(rt; ran.status, 64);
        assert_eq!(rt; ran.line.as_slice(), USAGE.as_bytes());
        assert!(rt; ran.output.is_empty());
    }
    for (size, status, line) in [
        (1_048_576, 0, ""),
        (1_048_577, 65, "groovy: file too long: a.groovy\n"),
    ] {
        let blanks = vec![in rt.alloc(); b' '; size]?;
        let ran = run::<Brand>(rt.alloc(), &["a.groovy"], blanks.as_slice(), Blank::new(1))?;
        assert_eq!(rt; ran.status, status);
        assert_eq!(rt; ran.line.as_slice(), line.as_bytes());
        assert!(rt; ran.output.is_empty());
    }
    Ok(())
}

// The calls of a run are one opening and two reads, one put into `out` where something is printed,
// and ten puts into `err` where a script is refused.
#[test]
fn each_call_fails_in_turn(rt: HostRuntime) -> Result<(), Fail> {
    let refused = "a.groovy:1:1: refused 40: not built yet\n";
    let unread = "groovy: cannot read: a.groovy\n";
    let unwritten = "groovy: cannot write\n";
    let table = [
        ("println 1 + 2", [0, 0, 0], 0, "3\n", ""),
        ("println 1 + 2", [1, 0, 0], 66, "", unread),
        ("println 1 + 2", [2, 0, 0], 66, "", unread),
        ("println 1 + 2", [3, 0, 0], 66, "", unread),
        ("println 1 + 2", [4, 0, 0], 0, "3\n", ""),
        ("println 1 + 2", [1, 0, 1], 74, "", ""),
        ("println 1 + 2", [1, 0, 2], 74, "", "groovy: cannot read: "),
        ("println 1 + 2", [0, 1, 0], 74, "", unwritten),
        ("println 1 + 2", [0, 1, 1], 74, "", ""),
        ("println 1 + 2", [0, 2, 0], 0, "3\n", ""),
        ("println x", [0, 0, 0], 2, "", refused),
        ("println x", [0, 0, 1], 74, "", ""),
        ("println x", [0, 0, 2], 74, "", "a.groovy"),
        ("println x", [0, 0, 3], 74, "", "a.groovy:"),
        ("println x", [0, 0, 4], 74, "", "a.groovy:1"),
        ("println x", [0, 0, 5], 74, "", "a.groovy:1:"),
        ("println x", [0, 0, 6], 74, "", "a.groovy:1:1"),
        ("println x", [0, 0, 7], 74, "", "a.groovy:1:1: refused "),
        ("println x", [0, 0, 8], 74, "", "a.groovy:1:1: refused 40"),
        ("println x", [0, 0, 9], 74, "", "a.groovy:1:1: refused 40: "),
        (
            "println x",
            [0, 0, 10],
            74,
            "",
            "a.groovy:1:1: refused 40: not built yet",
        ),
        ("println x", [0, 0, 11], 2, "", refused),
    ];
    for (script, fails, status, output, line) in table {
        let ran = run_failing::<Brand>(rt.alloc(), script.as_bytes(), fails, Blank::new(1))?;
        assert_eq!(rt; ran.status, status, "{line}");
        assert_eq!(rt; ran.output.as_slice(), output.as_bytes(), "{line}");
        assert_eq!(rt; ran.line.as_slice(), line.as_bytes(), "{line}");
    }
    Ok(())
}
