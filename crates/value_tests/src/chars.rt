use gv_base::OutOfMemory;
use gv_chars::{
    char_at, char_count, characters, compared, integer_in, padded_left, padded_right, part, picked,
    pieces, repeated, reversed, single, trimmed,
};
use std::alloc::Global;
use std::test::Fail;

/// One character of each size in UTF-8.
const SIZES: &str = "aé€😀";

#[test]
fn characters_are_counted(rt: HostRuntime) {
    for (text, count) in [
        ("", 0),
        ("a", 1),
        ("é", 1),
        ("€", 1),
        ("😀", 1),
        (SIZES, 4),
        ("e\u{301}", 2),
        ("\u{0}\u{10FFFF}", 2),
    ] {
        assert_eq!(rt; char_count(text), count, "{text}");
    }
}

#[test]
fn characters_stand_at_their_places(rt: HostRuntime) {
    for (text, at, found) in [
        ("", 0, None),
        (SIZES, 0, Some('a')),
        (SIZES, 1, Some('é')),
        (SIZES, 2, Some('€')),
        (SIZES, 3, Some('😀')),
        (SIZES, 4, None),
        (SIZES, 18446744073709551615, None),
    ] {
        assert_eq!(rt; char_at(text, at), found, "{text} {at}");
    }
}

#[test]
fn parts_go_up_to_before_their_end(rt: HostRuntime) -> Result<(), Fail> {
    for (from, to, found) in [
        (0, 0, ""),
        (0, 1, "a"),
        (1, 2, "é"),
        (1, 3, "é€"),
        (2, 4, "€😀"),
        (0, 4, SIZES),
        (4, 4, ""),
    ] {
        assert_eq!(rt;
            part(rt.alloc(), SIZES, from, to)?.as_str(),
            found,
            "{from} {to}"
        );
    }
    Ok(())
}

/// The characters at places that the text has.
fn at_places(alloc: Global, text: &str, places: &[usize]) -> Result<String, OutOfMemory> {
    let size = char_count(text);
    for place in places {
        if *place >= size {
            return single(alloc, '?');
        }
    }
    picked(alloc, text, places)
}

/// Places, and the characters of `SIZES` there.
const PICKED: [(&[usize], &str); 5] = [
    (&[], ""),
    (&[3], "😀"),
    (&[0, 3, 1], "a😀é"),
    (&[2, 2, 2, 0, 2, 2], "€€€a€€"),
    (&[3, 2, 1, 0], "😀€éa"),
];

#[test]
fn places_are_picked_in_their_order(rt: HostRuntime) -> Result<(), Fail> {
    for (places, found) in PICKED {
        assert_eq!(rt;
            at_places(rt.alloc(), SIZES, places)?.as_str(),
            found,
            "{found}"
        );
    }
    assert_eq!(rt; at_places(rt.alloc(), "", &[])?.as_str(), "");
    Ok(())
}

#[test]
fn texts_are_reversed(rt: HostRuntime) -> Result<(), Fail> {
    for (text, found) in [
        ("", ""),
        ("a", "a"),
        ("abc", "cba"),
        (SIZES, "😀€éa"),
        ("😀😀é", "é😀😀"),
    ] {
        assert_eq!(rt; reversed(rt.alloc(), text)?.as_str(), found, "{text}");
    }
    Ok(())
}

// U+00A0 and U+2003 are no blanks here, and U+0000 is one.
#[test]
fn blanks_are_trimmed(rt: HostRuntime) {
    for (text, found) in [
        ("", ""),
        (" \t\r\n\u{c} ", ""),
        ("a", "a"),
        ("  aé€😀", "aé€😀"),
        ("aé€😀 \n", "aé€😀"),
        ("\t é € \u{0}", "é €"),
        ("\u{a0}a\u{2003}", "\u{a0}a\u{2003}"),
        (" \u{7f} ", "\u{7f}"),
    ] {
        assert_eq!(rt; trimmed(text), found, "{text}");
    }
}

#[test]
fn texts_are_repeated(rt: HostRuntime) -> Result<(), Fail> {
    for (text, count, found) in [
        ("", 0, ""),
        ("", 18446744073709551615, ""),
        ("a€", 0, ""),
        ("a€", 1, "a€"),
        ("é😀", 3, "é😀é😀é😀"),
    ] {
        assert_eq!(rt;
            repeated(rt.alloc(), text, count)?.as_str(),
            found,
            "{text} {count}"
        );
    }
    Ok(())
}

/// The text padded on the left, a bar, and the text padded on the right.
fn padded(alloc: Global, text: &str, size: usize, unit: &str) -> Result<String, OutOfMemory> {
    if unit.is_empty() {
        return single(alloc, '?');
    }
    let mut both = padded_left(alloc, text, size, unit)?;
    both.push('|')?;
    both.push_str(padded_right(alloc, text, size, unit)?.as_str())?;
    Ok(both)
}

#[test]
fn texts_are_padded(rt: HostRuntime) -> Result<(), Fail> {
    for (text, size, unit, found) in [
        ("abc", 5, " ", "  abc|abc  "),
        ("é€", 7, "😀ab", "😀ab😀aé€|é€😀ab😀a"),
        ("é€", 8, "😀ab", "😀ab😀abé€|é€😀ab😀ab"),
        ("é€", 3, "😀ab", "😀é€|é€😀"),
        ("", 2, "€", "€€|€€"),
        ("", 0, "€", "|"),
        (SIZES, 4, "-", "aé€😀|aé€😀"),
        (SIZES, 3, "-", "aé€😀|aé€😀"),
        (SIZES, 0, "-", "aé€😀|aé€😀"),
    ] {
        assert_eq!(rt;
            padded(rt.alloc(), text, size, unit)?.as_str(),
            found,
            "{found}"
        );
    }
    Ok(())
}

// In UTF-16 U+FFFF comes behind U+10000; by scalar values it comes before.
#[test]
fn texts_are_ordered_by_scalar_values(rt: HostRuntime) {
    for (a, b, order) in [
        ("", "", 0),
        ("", "a", -1),
        ("a", "", 1),
        (SIZES, SIZES, 0),
        ("aé", "aé€", -1),
        ("aé€", "aé", 1),
        ("B", "a", -1),
        ("é", "z", 1),
        ("€", "é", 1),
        ("\u{ffff}", "\u{10000}", -1),
        ("😀", "€", 1),
        ("abz", "acb", -1),
    ] {
        assert_eq!(rt; compared(a, b), order, "{a} {b}");
    }
}

#[test]
fn integers_are_read(rt: HostRuntime) {
    for (text, least, greatest, found) in [
        ("0", -5, 5, Some(0)),
        ("-5", -5, 5, Some(-5)),
        ("+5", -5, 5, Some(5)),
        ("6", -5, 5, None),
        ("-6", -5, 5, None),
        (" 12\n", 0, 99, Some(12)),
        ("-0", 0, 0, Some(0)),
        ("00000000000000000000000000000007", 0, 9, Some(7)),
        ("2147483647", -2147483648, 2147483647, Some(2147483647)),
        ("2147483648", -2147483648, 2147483647, None),
        ("-2147483648", -2147483648, 2147483647, Some(-2147483648)),
    ] {
        assert_eq!(rt; integer_in(text, least, greatest), found, "{text}");
    }
}

#[test]
fn integers_fit_64_bits(rt: HostRuntime) {
    for (text, found) in [
        ("9223372036854775807", Some(9223372036854775807)),
        ("9223372036854775808", None),
        ("-9223372036854775808", Some(-9223372036854775808)),
        ("-9223372036854775809", None),
        ("99999999999999999999999999999999999999", None),
    ] {
        assert_eq!(rt;
            integer_in(text, -9223372036854775808, 9223372036854775807),
            found,
            "{text}"
        );
    }
}

// U+0661 and U+FF11 are digits, but no ASCII digits; U+00A0 is no blank.
#[test]
fn other_texts_are_no_integers(rt: HostRuntime) {
    for text in [
        "", " ", "+", "-", "+-1", "--1", "1-", "1 2", "- 1", "1.0", "0x1", "1_0", "é", "1€", "😀1",
        "\u{661}", "\u{ff11}", "\u{a0}1",
    ] {
        assert_eq!(rt; integer_in(text, -100, 100), None, "{text}");
    }
}

/// The texts with a bar behind each.
fn joined(alloc: Global, texts: &[String]) -> Result<String, OutOfMemory> {
    let mut whole = String::new(alloc);
    for text in texts {
        whole.push_str(text.as_str())?;
        whole.push('|')?;
    }
    Ok(whole)
}

#[test]
fn characters_are_texts(rt: HostRuntime) -> Result<(), Fail> {
    for (text, found) in [("", ""), ("a", "a|"), (SIZES, "a|é|€|😀|"), ("😀😀", "😀|😀|")] {
        let texts = characters(rt.alloc(), text)?;
        assert_eq!(rt;
            joined(rt.alloc(), texts.as_slice())?.as_str(),
            found,
            "{text}"
        );
    }
    assert_eq!(rt; single(rt.alloc(), '€')?.as_str(), "€");
    Ok(())
}

#[test]
fn pieces_stand_between_separators(rt: HostRuntime) -> Result<(), Fail> {
    for (text, separators, found) in [
        ("", " ", ""),
        ("   ", " ", ""),
        ("a b", " ", "a|b|"),
        ("  a \t b\n", " \t\n\r\u{c}", "a|b|"),
        ("a,b;c", ",;", "a|b|c|"),
        ("a,,b,", ",", "a|b|"),
        (",é€,😀", ",", "é€|😀|"),
        ("a€b😀c", "😀€", "a|b|c|"),
        ("aéb", "e", "aéb|"),
        (SIZES, "", "aé€😀|"),
        (SIZES, SIZES, ""),
    ] {
        let texts = pieces(rt.alloc(), text, separators)?;
        assert_eq!(rt;
            joined(rt.alloc(), texts.as_slice())?.as_str(),
            found,
            "{text}"
        );
    }
    Ok(())
}
