//! Texts, and which of their line ends count; texts built by repetition, and the place that is too deep.

ghost use Rattle.std.specs.Prelude.{◌<◌, length};

use gv_base::{Names, OutOfMemory};
use gv_lex::{LexError, Token, TokenKind, lex};
use gv_lines::{keep_lines, too_deep};
use std::alloc::Global;
use std::fmt::Write;
use std::test::Fail;

/// In each text ⏎ is a line end that counts, and ␊ one that doesn't, or is no token.
const BEHIND: &str = r#"a⏎Foo⏎1⏎5L⏎'a'⏎"a"⏎b
"$a"⏎"a${b}c"⏎do⏎b
f()⏎a[0]⏎{}⏎b
a++⏎b--⏎import a.*⏎b
a,␊b;␊c:␊d
a.␊b?.␊c*.␊d.&␊e.@␊f
a..␊b..<␊c...␊d->␊e?␊f?:␊g
!␊a+␊b-␊c*␊d%␊e/␊f
a<<␊b>>␊c>>>␊d<␊e<=␊f>␊g>=␊h<=>␊i==␊j!=␊k
a&␊b|␊c^␊d&&␊e||␊f
a=␊b+=␊c-=␊d*=␊e%=␊f/=␊g<<=␊h>>=␊i>>>=␊j&=␊k|=␊l^=␊m
@␊a*:␊b**␊c**=␊d~␊e=~␊f==~␊g===␊h
else␊a
try␊a
finally␊a
a in␊b
a instanceof␊B
a as␊B
class A extends␊B implements␊C⏎a
assert⏎boolean⏎break⏎case⏎class⏎continue⏎def⏎default⏎false⏎final⏎for⏎if⏎import⏎int⏎long⏎new⏎null⏎a
catch⏎private⏎protected⏎public⏎return⏎static⏎super⏎switch⏎this⏎throw⏎true⏎void⏎while⏎a
x.in⏎y?.else⏎z
x*.try⏎y.&as⏎z
x.@in␊y.z in␊a
x.␊in⏎y
"#;

/// Likewise.
const BEFORE: &str = r#"a␊.b␊?.c␊*.d␊.&e␊.@f
a␊else␊b␊finally␊c
a␊catch⏎b
{a␊}⏎b
a⏎try␊b
a⏎++b⏎--c⏎-1⏎+d⏎*e
a⏎(b)⏎[c]⏎{d}
a⏎.*b⏎..c⏎,d⏎;e⏎)f⏎]g
a⏎'b'⏎"c$d"⏎in␊e
"#;

/// Likewise.
const AROUND: &str = r#"
␊
␊a␊
␊ ␊a⏎␊ ␊b␊␊
(␊a␊b␊)⏎c
[␊a␊b␊]⏎c
{␊a⏎b␊}⏎c
(a{b⏎c}␊d)
[{a⏎b}␊({c⏎d}␊e)␊f]
{(a␊b)⏎c[d␊e]⏎f}
(a}⏎b{(a␊b}⏎c]⏎d
)⏎a
"${␊a⏎b␊}"⏎c
"${␊}${␊a␊}"
("${a⏎b}"␊c)
"${(a␊b}"⏎c
("${[a␊b}"␊c)⏎d
("${)⏎a}"␊b)
"${{a⏎b}⏎c}"⏎d
"${[a␊"${b⏎c}${d⏎e}"␊f]}"⏎g
"""␊${a⏎b}␊"""⏎c
a // b⏎// c␊ ␊d
a /*␊*/⏎/*␊*/b
/*␊*/␊a /*␊*/ b
"#;

/// A row is A‖B‖N‖C‖D for the text of A, N times B, C and N times D. Behind it is the place of the
/// first token whose load is past 300. ␊ stands for a line end.
const LOADS: &str = r#"‖(‖300‖‖ ⇒ none
‖(‖301‖‖ ⇒ 1:301
‖[‖301‖‖ ⇒ 1:301
‖{‖301‖‖ ⇒ 1:301
‖(‖300‖a‖) ⇒ none
‖(‖300‖'a'‖) ⇒ none
‖(‖300‖1‖) ⇒ none
‖(‖300‖+‖) ⇒ 1:301
‖(‖300‖this‖) ⇒ 1:301
‖(‖300‖do‖) ⇒ 1:301
‖(‖300‖a;b, c]; d‖ ⇒ none
‖(‖300‖a B‖) ⇒ 1:303
‖(‖300‖a 1‖) ⇒ 1:303
‖(‖300‖1 5L‖) ⇒ 1:303
‖(‖300‖a 'b'‖) ⇒ 1:303
‖(‖300‖'a' "$b"‖) ⇒ 1:305
‖(‖300‖a] b‖ ⇒ 1:304
‖(‖298‖"$a.b"‖) ⇒ none
‖(‖299‖"$a.b"‖) ⇒ 1:303
‖(‖299‖"${a}${b}"‖) ⇒ none
‖(‖300‖"${}"‖) ⇒ 1:304
x = [‖1 + 1, ‖10000‖1]‖ ⇒ none
f(‖1 + 1, ‖10000‖1)‖ ⇒ none
‖a ‖301‖‖ ⇒ none
‖a ‖302‖‖ ⇒ 1:603
(‖a ‖301‖‖ ⇒ 1:602
‖- ‖301‖‖ ⇒ 1:601
a‖.b‖301‖‖ ⇒ 1:602
a‖.in‖151‖‖ ⇒ 1:452
‖"${‖300‖a‖}" ⇒ none
‖"${‖301‖a‖}" ⇒ 1:904
‖"${‖301‖‖}" ⇒ 1:904
"‖${a + b}$c‖1000‖"‖ ⇒ none
‖if (a)␊‖150‖b‖ ⇒ none
‖if (a)␊‖301‖b‖ ⇒ 151:1
‖if (a)␊␊‖151‖b‖ ⇒ 301:1
‖while (a)␊‖151‖b‖ ⇒ 151:1
‖for (;;)␊‖151‖b‖ ⇒ 151:1
‖for (a in b)␊‖150‖c‖ ⇒ 150:8
‖if (a]␊‖151‖b‖ ⇒ 151:1
‖if (a) ‖150‖b‖ ⇒ 1:1051
‖if (a) b␊else ‖75‖c‖ ⇒ none
‖if (a) b␊else ‖76‖c‖ ⇒ 76:6
‖if (a)␊b␊‖1000‖‖ ⇒ none
‖if (a) {}␊‖1000‖‖ ⇒ none
‖x.if (a)␊‖1000‖‖ ⇒ none
‖f (a)␊‖1000‖‖ ⇒ none
‖x␊‖1000‖‖ ⇒ none
‖a + b;‖1000‖‖ ⇒ none
{(‖a + b,‖1000‖c)}‖ ⇒ none
‖f a, ‖301‖‖ ⇒ 1:1503
f a‖, b‖10000‖‖ ⇒ none
a b‖, c d e‖149‖‖ ⇒ none
a b‖, c d e‖150‖‖ ⇒ 1:1053
for (def x = a b‖, c d e‖150‖;;) f‖ ⇒ 1:1052
‖for (def i = 0, n = 9; i < n; i++) f i␊‖1000‖‖ ⇒ none
‖a = b c, {‖100‖}‖ ⇒ none
‖a = b c, {‖101‖}‖ ⇒ 1:1003
"${‖a + b, ‖300‖}"‖ ⇒ 1:2099
‖(a, b), ‖301‖‖ ⇒ 1:2401
{‖a + b␊‖1000‖}‖ ⇒ none
"${‖a + b␊‖1000‖}"‖ ⇒ none
(‖a +␊‖299‖b)‖ ⇒ none
(‖a +␊‖300‖b)‖ ⇒ 300:3
‖()‖300‖‖ ⇒ none
‖()‖301‖‖ ⇒ 1:601
‖[]a‖151‖‖ ⇒ 1:451
‖(+ + + + + +)‖294‖‖ ⇒ none
‖(+ + + + + +)‖295‖‖ ⇒ 1:3834
"#;

#[test]
fn keeps_lines_by_what_stands_before_them(rt: HostRuntime) -> Result<(), Fail> {
    assert_eq!(rt; misread(rt.alloc(), BEHIND)?.as_str(), "");
    Ok(())
}

#[test]
fn keeps_lines_by_what_stands_behind_them(rt: HostRuntime) -> Result<(), Fail> {
    assert_eq!(rt; misread(rt.alloc(), BEFORE)?.as_str(), "");
    Ok(())
}

#[test]
fn keeps_lines_by_what_stands_around_them(rt: HostRuntime) -> Result<(), Fail> {
    assert_eq!(rt; misread(rt.alloc(), AROUND)?.as_str(), "");
    Ok(())
}

#[test]
fn finds_the_first_token_too_deep(rt: HostRuntime) -> Result<(), Fail> {
    let mut misread = String::new(rt.alloc());
    for row in LOADS.lines() {
        if !is_right_load(rt.alloc(), row)? {
            misread.push_str(row)?;
            misread.push_str("\n")?;
        }
    }
    assert_eq!(rt; misread.as_str(), "");
    Ok(())
}

/// The rows of a table of which other line ends are kept.
fn misread(alloc: Global, table: &str) -> Result<String, Fail> {
    let mut misread = String::new(alloc);
    for row in table.lines() {
        if !is_right(alloc, row)? {
            misread.push_str(row)?;
            misread.push_str("\n")?;
        }
    }
    Ok(misread)
}

/// Whether what is kept of a text is all its tokens but the line ends that are marked as such.
fn is_right(alloc: Global, row: &str) -> Result<bool, Fail> {
    let tokens = tokens_of(alloc, row)?;
    if tokens.is_empty() {
        return Ok(false);
    }
    let mut want = Vec::new(alloc);
    for token in &tokens {
        if !matches!(token.kind, TokenKind::LineEnd) || counts(row, token.place.line) {
            want.push(*token)?;
        }
    }
    Ok(keep_lines(alloc, tokens.as_slice())?.as_slice() == want.as_slice())
}

/// Whether the line end of a line is marked as one that counts.
fn counts(row: &str, line: u32) -> bool {
    let mut left = line;
    for c in row.chars() {
        if c == '⏎' || c == '␊' {
            if left <= 1 {
                return c == '⏎';
            }
            left -= 1;
        }
    }
    false
}

/// The tokens of a text with its marks as line ends. None, if the text is refused.
fn tokens_of(alloc: Global, text: &str) -> Result<Vec<Token>, Fail> {
    let mut plain = String::new(alloc);
    for c in text.chars() {
        plain.push(if c == '⏎' || c == '␊' { '\n' } else { c })?;
    }
    if plain.len() >= 100_000 {
        return Ok(Vec::new(alloc));
    }
    let mut names = Names::new(alloc);
    match lex(alloc, 0, plain.as_bytes(), &mut names) {
        Ok(tokens) => Ok(tokens),
        Err(LexError::Refused(_)) => Ok(Vec::new(alloc)),
        Err(LexError::OutOfMemory) => Err(OutOfMemory)?,
    }
}

fn is_right_load(alloc: Global, row: &str) -> Result<bool, Fail> {
    let Some((text, want)) = row.split_once(" ⇒ ") else {
        return Ok(false);
    };
    let tokens = tokens_of(alloc, repeated(alloc, text)?.as_str())?;
    if tokens.is_empty() {
        return Ok(false);
    }
    let kept = keep_lines(alloc, tokens.as_slice())?;
    let shown = match too_deep(alloc, kept.as_slice())? {
        Some(place) => format!(in alloc; "{}:{}", place.line, place.column)?,
        None => String::from_str(alloc, "none")?,
    };
    Ok(shown.as_str() == want)
}

/// The text that a row of loads is of.
fn repeated(alloc: Global, row: &str) -> Result<String, Fail> {
    let mut text = String::new(alloc);
    let Some((first, rest)) = row.split_once("‖") else {
        return Ok(text);
    };
    let Some((opening, rest)) = rest.split_once("‖") else {
        return Ok(text);
    };
    let Some((times, rest)) = rest.split_once("‖") else {
        return Ok(text);
    };
    let Some((middle, closing)) = rest.split_once("‖") else {
        return Ok(text);
    };
    let Ok(times) = times.parse::<u32>() else {
        return Ok(text);
    };
    text.push_str(first)?;
    for _ in 0..times {
        text.push_str(opening)?;
    }
    text.push_str(middle)?;
    for _ in 0..times {
        text.push_str(closing)?;
    }
    Ok(text)
}
