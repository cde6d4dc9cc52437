use gv_base::OutOfMemory;
use gv_search::{
    contains, count_places, ends_with, first_place, last_place, replaced, starts_with,
    without_first,
};

const FORTY: &str = "aaaaaaaaaaaaaaaaaaaaaaaaaaaaaaaaaaaaaaaa";

const TWENTY: &str = "bbbbbbbbbbbbbbbbbbbb";

// é and è share their first byte, é and © their last, 😀 and 😁 all but the last.
#[test]
fn parts_stand_in_texts(rt: HostRuntime) {
    for (text, part, want) in [
        ("", "", true),
        ("a", "", true),
        ("", "a", false),
        ("abc", "abc", true),
        ("abc", "abcd", false),
        ("abc", "bc", true),
        ("abc", "ac", false),
        ("aab", "ab", true),
        ("xé€😀y", "€😀", true),
        ("é", "è", false),
        ("😀", "😁", false),
        (FORTY, "aaa", true),
        (FORTY, "ab", false),
    ] {
        assert_eq!(rt; contains(text, part), want, "{text} {part}");
    }
}

#[test]
fn texts_begin_with_parts(rt: HostRuntime) {
    for (text, part, want) in [
        ("", "", true),
        ("abc", "", true),
        ("", "a", false),
        ("abc", "ab", true),
        ("abc", "bc", false),
        ("ab", "abc", false),
        ("éa", "é", true),
        ("éa", "è", false),
        ("😀€", "😀€", true),
        ("aé", "é", false),
    ] {
        assert_eq!(rt; starts_with(text, part), want, "{text} {part}");
    }
}

#[test]
fn texts_end_with_parts(rt: HostRuntime) {
    for (text, part, want) in [
        ("", "", true),
        ("abc", "", true),
        ("", "a", false),
        ("abc", "bc", true),
        ("abc", "ab", false),
        ("bc", "abc", false),
        ("aé", "é", true),
        ("aé", "©", false),
        ("a😀", "😀", true),
        ("😀a", "😀", false),
    ] {
        assert_eq!(rt; ends_with(text, part), want, "{text} {part}");
    }
}

#[test]
fn the_first_place_counts_characters(rt: HostRuntime) {
    for (text, part, want) in [
        ("", "", Some(0)),
        ("abc", "", Some(0)),
        ("", "a", None),
        ("abc", "a", Some(0)),
        ("abc", "c", Some(2)),
        ("abc", "d", None),
        ("ab", "abc", None),
        ("abcabc", "bc", Some(1)),
        ("aab", "ab", Some(1)),
        ("éa", "a", Some(1)),
        ("€€a", "a", Some(2)),
        ("😀b", "b", Some(1)),
        ("aé€😀z", "z", Some(4)),
        ("aé€😀z", "€😀", Some(2)),
        (FORTY, "b", None),
    ] {
        assert_eq!(rt; first_place(text, part), want, "{text} {part}");
    }
}

#[test]
fn the_last_place_counts_characters(rt: HostRuntime) {
    for (text, part, want) in [
        ("", "", Some(0)),
        ("abc", "", Some(3)),
        ("é€😀", "", Some(3)),
        ("", "a", None),
        ("abc", "a", Some(0)),
        ("abc", "d", None),
        ("ab", "abc", None),
        ("abcabc", "bc", Some(4)),
        ("aaaa", "aa", Some(2)),
        ("ababa", "aba", Some(2)),
        ("éaéa", "a", Some(3)),
        ("😀b😀b", "😀b", Some(2)),
        ("a€b€", "€", Some(3)),
        (FORTY, "aa", Some(38)),
    ] {
        assert_eq!(rt; last_place(text, part), want, "{text} {part}");
    }
}

#[test]
fn overlapping_places_count(rt: HostRuntime) {
    for (text, part, want) in [
        ("", "", 1),
        ("abc", "", 4),
        ("é€😀", "", 4),
        ("", "a", 0),
        ("abc", "d", 0),
        ("aaaa", "a", 4),
        ("aaaa", "aa", 3),
        ("aaaa", "aaaa", 1),
        ("aaaa", "aaaaa", 0),
        ("ababa", "aba", 2),
        ("abcabc", "bc", 2),
        ("éé", "é", 2),
        ("😀😀😀", "😀😀", 2),
        ("a€a€a", "a€a", 2),
        (FORTY, "aa", 39),
    ] {
        assert_eq!(rt; count_places(text, part), want, "{text} {part}");
    }
}

// What is put in isn't searched.
#[test]
fn parts_are_replaced_from_the_left(rt: HostRuntime) -> Result<(), OutOfMemory> {
    for (text, part, with, want) in [
        ("abc", "b", "", "ac"),
        ("abc", "d", "x", "abc"),
        ("", "a", "x", ""),
        ("abc", "abc", "x", "x"),
        ("ab", "abc", "x", "ab"),
        ("aaaa", "aa", "b", "bb"),
        ("aaaaa", "aa", "b", "bba"),
        ("ababa", "aba", "x", "xba"),
        ("aaa", "a", "aa", "aaaaaa"),
        ("abab", "ab", "abab", "abababab"),
        ("aé€😀", "é€", "zz", "azz😀"),
        ("😀a😀", "😀", "", "a"),
        ("é", "é", "è", "è"),
        (FORTY, "aa", "b", TWENTY),
    ] {
        let new = replaced(rt.alloc(), text, part, with)?;
        assert_eq!(rt; new.as_str(), want, "{text} {part} {with}");
    }
    Ok(())
}

#[test]
fn the_empty_part_stands_at_each_place(rt: HostRuntime) -> Result<(), OutOfMemory> {
    for (text, with, want) in [
        ("", "-", "-"),
        ("abc", "-", "-a-b-c-"),
        ("é😀", "€", "€é€😀€"),
        ("abc", "", "abc"),
    ] {
        let new = replaced(rt.alloc(), text, "", with)?;
        assert_eq!(rt; new.as_str(), want, "{text} {with}");
    }
    Ok(())
}

#[test]
fn the_first_occurrence_goes(rt: HostRuntime) -> Result<(), OutOfMemory> {
    for (text, part, want) in [
        ("", "", ""),
        ("", "a", ""),
        ("abc", "", "abc"),
        ("abc", "d", "abc"),
        ("ab", "abc", "ab"),
        ("abc", "abc", ""),
        ("abcabc", "bc", "aabc"),
        ("aaaa", "aa", "aa"),
        ("é€é€", "€", "éé€"),
        ("😀a", "😀", "a"),
        ("a😀", "😀", "a"),
    ] {
        let new = without_first(rt.alloc(), text, part)?;
        assert_eq!(rt; new.as_str(), want, "{text} {part}");
    }
    Ok(())
}
