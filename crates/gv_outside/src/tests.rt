use super::*;
use std::io::Write;
use std::test::Fail;
use std::{env, fs, io, process};

#[test]
fn reads_and_writes_in_memory(rt: HostRuntime) -> Result<(), Fail> {
    let name = String::from_str(rt.alloc(), "a.groovy")?;
    let entry = (name.clone()?, b"return 1".to_vec(rt.alloc())?);
    let mut files = SureFiles::new(vec![in rt.alloc(); entry]?);
    let bytes = read_whole(rt.alloc(), &mut files, name)?;
    assert_eq!(rt; bytes.as_slice(), b"return 1".as_slice());
    let absent = String::from_str(rt.alloc(), "b.groovy")?;
    assert!(rt; read_whole(rt.alloc(), &mut files, absent)?.is_empty());

    let mut sink = SureSink::new(vec![in rt.alloc(); 0; 6]?, 6);
    put_all(&mut sink, b"ab")?;
    put_pieces(
        &mut sink,
        &[b"cd".as_slice(), b"".as_slice(), b"efg".as_slice()],
    )?;
    assert_eq!(rt; sink.written(), b"abcdef".as_slice());
    Ok(())
}

// The calls are one opening, a read of all, and a read of nothing.
#[test]
fn fails_at_each_call_to_files(rt: HostRuntime) -> Result<(), Fail> {
    let table = [
        ("a", 1, false),
        ("a", 2, false),
        ("a", 3, false),
        ("a", 4, true),
        ("b", 4, false),
    ];
    for (asked, fails, is_read) in table {
        let entry = (
            String::from_str(rt.alloc(), "a")?,
            b"12345".to_vec(rt.alloc())?,
        );
        let entries = vec![in rt.alloc(); entry]?;
        let mut files = MemoryFiles::new(entries, vec![in rt.alloc(); fails]?);
        let name = String::from_str(rt.alloc(), asked)?;
        match read_whole(rt.alloc(), &mut files, name) {
            Ok(bytes) => assert!(rt;
                is_read && bytes.as_slice() == b"12345".as_slice(),
                "{asked} {fails}"
            ),
            Err(error) => assert!(rt; !is_read && error == ReadError::Failed, "{asked} {fails}"),
        }
    }
    Ok(())
}

#[test]
fn fails_at_each_call_to_a_sink(rt: HostRuntime) -> Result<(), Fail> {
    for (fails, is_put, written) in [(1, false, ""), (2, false, "ab"), (3, true, "abc")] {
        let buffer = vec![in rt.alloc(); 0; 8]?;
        let mut sink = MemorySink::new(buffer, 8, vec![in rt.alloc(); fails]?);
        let outcome = put_pieces(
            &mut sink,
            &[b"ab".as_slice(), b"".as_slice(), b"c".as_slice()],
        );
        assert_eq!(rt; outcome.is_ok(), is_put, "{fails}");
        assert_eq!(rt; sink.written(), written.as_bytes(), "{fails}");
    }
    Ok(())
}

#[test]
fn reads_a_file_of_the_machine(rt: HostRuntime) -> Result<(), Fail> {
    let name = format!(in rt.alloc(); "gv_outside-{}", process::id(rt.process()))?;
    let path = env::temp_dir(&rt)?.join(rt.alloc(), name.as_str())?;
    let path = String::from_str(rt.alloc(), path.as_str())?;
    fs::write(&rt, path.as_str(), b"def x = 1")?;
    let mut files = HostFiles::new(&rt);
    let read = read_whole(rt.alloc(), &mut files, path.clone()?);
    fs::remove_file(&rt, path.as_str())?;
    assert_eq!(rt; read?.as_slice(), b"def x = 1".as_slice());
    assert_eq!(rt; files.faults(), 0);
    assert!(rt; read_whole(rt.alloc(), &mut files, path) == Err(ReadError::Failed));
    assert_eq!(rt; files.faults(), 1);
    Ok(())
}

/// A writer that is interrupted once, then takes two bytes, then none.
#[derive(Drop)]
struct Stubborn {
    writes: u32,
}

impl Write for Stubborn {
    fn write(&mut self, bytes: &[u8]) -> io::Result<usize> {
        self.writes = self.writes.saturating_add(1);
        match self.writes {
            1 => Err(io::Error::from(io::ErrorKind::Interrupted)),
            2 => Ok(bytes.len().min(2)),
            _ => Ok(0),
        }
    }

    fn flush(&mut self) -> io::Result<()> {
        Ok(())
    }
}

#[test]
fn writes_through_an_interruption(rt: HostRuntime) {
    let mut sink = HostSink::new(Stubborn { writes: 0 });
    assert_eq!(rt; sink.put(b""), Ok(0));
    assert_eq!(rt; sink.put(b"abc"), Ok(2));
    assert_eq!(rt; sink.faults(), 0);
    assert_eq!(rt; sink.put(b"c"), Err(Failed));
    assert_eq!(rt; sink.faults(), 1);
}
