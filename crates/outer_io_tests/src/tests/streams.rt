use super::flaky::{FlakyReader, FlakyWriter};
use super::memory::texts;
use super::{answers, shown};
use outer_io::{Put, ReaderSource, Sink, SystemFiles, WriterSink, Written, read_file, write_all};
use std::test::Fail;

#[test]
fn interrupted_reads_are_tried_again(rt: HostRuntime) -> Result<(), Fail> {
    let mut source = ReaderSource::new(FlakyReader {
        bytes: b"abcd",
        breaks: true,
        is_quiet: true,
    });
    let told = answers(rt.alloc(), &mut source, &mut [0u8; 3], 3)?;
    assert_eq!(rt; told.as_str(), "Took(3) Took(1) Failed ");
    Ok(())
}

#[test]
fn a_reader_is_read_to_its_end(rt: HostRuntime) -> Result<(), Fail> {
    let mut source = ReaderSource::new(b"abcd".as_slice());
    let told = answers(rt.alloc(), &mut source, &mut [0u8; 3], 3)?;
    assert_eq!(rt; told.as_str(), "Took(3) Took(1) End ");
    Ok(())
}

#[test]
fn interrupted_writes_are_tried_again(rt: HostRuntime) {
    let mut sink = WriterSink::new(FlakyWriter {
        left: 5,
        is_quiet: true,
    });
    assert_eq!(rt; sink.write(b"abc"), Put::Took(2));
    assert_eq!(rt; write_all(&mut sink, b"cde"), Written::Whole);
    assert_eq!(rt; sink.write(b"f"), Put::Failed);
}

#[test]
fn a_file_is_read_whole(rt: HostRuntime) {
    for (breaks, limit, want) in [
        (false, 4, "abcd"),
        (false, 3, "too long"),
        (true, 4, "failed"),
        (true, 3, "too long"),
    ] {
        let mut file = ReaderSource::new(FlakyReader {
            bytes: b"abcd",
            breaks,
            is_quiet: true,
        });
        assert_eq!(rt; shown(&read_file(rt.alloc(), &mut file, limit)), want);
    }
}

#[test]
fn the_systems_files_are_told_apart(rt: HostRuntime) -> Result<(), Fail> {
    let mut files = SystemFiles::new(&rt);
    let asked = [
        ("/", 100_000),
        ("/no/such/file", 100_000),
        ("/dev/null", 100_000),
        ("/dev/zero", 100_000),
    ];
    let told = texts(rt.alloc(), &mut files, &asked)?;
    assert_eq!(rt; told.as_str(), "failed;absent;;too long;");
    Ok(())
}
