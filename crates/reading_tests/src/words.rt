use gv_words::read_words;
use std::alloc::Global;
use std::test::Fail;

/// Words, with a blank between two, and what they ask for: the place of the file, ticks, cells and depth, or `-` for no reading.
const READINGS: [(&str, &str); 46] = [
    ("a.groovy", "0 100000000 16000000 4000"),
    ("", "0 100000000 16000000 4000"),
    ("--ticks 5 a.groovy", "2 5 16000000 4000"),
    ("--ticks=5 a.groovy", "1 5 16000000 4000"),
    ("a.groovy --ticks 5", "0 5 16000000 4000"),
    ("a.groovy --ticks=5", "0 5 16000000 4000"),
    ("--cells 6 a --depth=7", "2 100000000 6 7"),
    ("--depth 7 --ticks=5 a --cells=6", "3 5 6 7"),
    ("--ticks 0005 a", "2 5 16000000 4000"),
    ("--ticks 00000000000000000012 a", "2 12 16000000 4000"),
    ("--ticks 1 --cells 1 --depth 1 a", "6 1 1 1"),
    ("--ticks=1000000000000 a", "1 1000000000000 16000000 4000"),
    ("--cells=64000000 a", "1 100000000 64000000 4000"),
    ("--depth=100000 a", "1 100000000 16000000 100000"),
    ("-- a", "1 100000000 16000000 4000"),
    ("-- --ticks", "1 100000000 16000000 4000"),
    ("-- --", "1 100000000 16000000 4000"),
    ("-- -a", "1 100000000 16000000 4000"),
    ("a --", "0 100000000 16000000 4000"),
    ("--ticks 5 -- --ticks", "3 5 16000000 4000"),
    ("5", "0 100000000 16000000 4000"),
    ("ticks=5", "0 100000000 16000000 4000"),
    ("a-b", "0 100000000 16000000 4000"),
    ("a b", "-"),
    ("a -- b", "-"),
    ("a ", "-"),
    ("-", "-"),
    ("-- -", "-"),
    ("--", "-"),
    ("-a", "-"),
    ("a --tick 5", "-"),
    ("a --ticks5", "-"),
    ("a --Ticks 5", "-"),
    ("a -ticks 5", "-"),
    ("--ticks 5", "-"),
    ("a --ticks", "-"),
    ("a --ticks=", "-"),
    ("a --ticks 5 --ticks 5", "-"),
    ("a --ticks=5 --ticks=6", "-"),
    ("a --ticks --cells 5", "-"),
    ("a --ticks -- 5", "-"),
    ("a --ticks 0", "-"),
    ("a --ticks=1000000000001", "-"),
    ("a --cells=64000001", "-"),
    ("a --depth=100001", "-"),
    ("a --ticks=000000000000000000012", "-"),
];

/// Values that are no number of a limit.
const NO_NUMBERS: [&str; 8] = ["+5", "-5", "5k", "0x5", "5.0", "5=5", "1_000", "٥"];

/// What the words ask for, as text.
fn shown(alloc: Global, text: &str) -> Result<String, Fail> {
    let mut words = Vec::new(alloc);
    for word in text.split(' ') {
        words.push(String::from_str(alloc, word)?)?;
    }
    match read_words(words.as_slice()) {
        None => Ok(String::from_str(alloc, "-")?),
        Some(reading) => {
            let limits = reading.limits;
            Ok(format!(in alloc;
                "{} {} {} {}",
                reading.file, limits.ticks, limits.cells, limits.depth
            )?)
        }
    }
}

/// The rows that are read otherwise.
fn misread(alloc: Global, rows: &[(&str, &str)]) -> Result<String, Fail> {
    let mut misread = String::new(alloc);
    for (text, want) in rows {
        let shown = shown(alloc, text)?;
        if shown.as_str() != *want {
            write!(misread, "{text}: {}\n", shown.as_str())?;
        }
    }
    Ok(misread)
}

/// The values that are read as numbers.
fn numbers(alloc: Global, values: &[&str]) -> Result<String, Fail> {
    let mut numbers = String::new(alloc);
    for value in values {
        let text = format!(in alloc; "a --ticks={value}")?;
        if shown(alloc, text.as_str())?.as_str() != "-" {
            write!(numbers, "{value}\n")?;
        }
    }
    Ok(numbers)
}

#[test]
fn reads_words(rt: HostRuntime) -> Result<(), Fail> {
    assert_eq!(rt; misread(rt.alloc(), READINGS.as_slice())?.as_str(), "");
    Ok(())
}

#[test]
fn refuses_what_is_no_number(rt: HostRuntime) -> Result<(), Fail> {
    assert_eq!(rt; numbers(rt.alloc(), NO_NUMBERS.as_slice())?.as_str(), "");
    Ok(())
}

#[test]
fn no_words_have_no_reading(rt: HostRuntime) {
    assert!(rt; read_words(&[]).is_none());
}
