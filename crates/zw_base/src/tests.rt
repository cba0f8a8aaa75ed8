// What no clause says: that the calls succeed where there is memory, and that the definitions are meant so.
use crate::{
    Bytes, Fetched, FilePath, Files, MemFiles, MemSink, PathFault, Reason, Seq, Sink, Status,
    SureFiles, SureSink, Which,
};
use std::test::Fail;

#[test]
fn tells_paths_from_other_texts(rt: HostRuntime) -> Result<(), Fail> {
    let alloc = rt.alloc();
    let long = [b'a'; 256];
    let long = std::str::from_utf8(&long)?;
    for (text, fault) in [
        ("m.zig", None),
        ("a/b-c/_0.Z", None),
        ("...", None),
        ("a/.b", None),
        ("", Some(PathFault::Empty)),
        (long, Some(PathFault::TooLong)),
        ("a b", Some(PathFault::BadByte)),
        ("/ ", Some(PathFault::BadByte)),
        ("a\\b", Some(PathFault::BadByte)),
        ("/a", Some(PathFault::BadPart)),
        ("-a", Some(PathFault::BadPart)),
        ("a//b", Some(PathFault::BadPart)),
        ("a/", Some(PathFault::BadPart)),
        (".", Some(PathFault::BadPart)),
        ("a/../b", Some(PathFault::BadPart)),
        ("a/./b", Some(PathFault::BadPart)),
    ] {
        let path = FilePath::of(alloc, text);
        assert_eq!(rt; path.is_ok(), fault.is_none(), "at {text}");
        if let Err(found) = path {
            assert_eq!(rt; Some(found), fault, "at {text}");
        }
    }
    assert_eq!(rt;
        FilePath::of(alloc, long.get(..255).unwrap_or(""))?
            .as_str()
            .len(),
        255
    );
    Ok(())
}

#[test]
fn reads_files_in_memory(rt: HostRuntime) -> Result<(), Fail> {
    let alloc = rt.alloc();
    let path = FilePath::of(alloc, "a")?;
    let other = FilePath::of(alloc, "b")?;
    let held = vec![in alloc; (path.clone()?, Bytes::of(Vec::from_slice(alloc, b"text")?))]?;
    let mut files = MemFiles::new(Seq::of(held), Seq::of(vec![in alloc; 2u64]?));
    let mut into = Vec::from_slice(alloc, b"before")?;
    assert_eq!(rt; files.read(&path, 4, &mut into), Fetched::Read);
    assert_eq!(rt; into.as_slice(), b"text".as_slice());
    assert_eq!(rt; files.read(&path, 4, &mut into), Fetched::Failed);
    assert_eq!(rt; files.read(&path, 3, &mut into), Fetched::TooLong);
    assert_eq!(rt; files.read(&other, 3, &mut into), Fetched::Absent);
    assert_eq!(rt; into.len(), 0);
    let held = vec![in alloc; (path, Bytes::of(Vec::from_slice(alloc, b"text")?))]?;
    let mut files = SureFiles::new(Seq::of(held));
    assert_eq!(rt; files.read(&other, 9, &mut into), Fetched::Absent);
    Ok(())
}

#[test]
fn writes_to_sinks_in_memory(rt: HostRuntime) -> Result<(), Fail> {
    let alloc = rt.alloc();
    let mut sink = MemSink::new(alloc, 5, 3, Seq::of(vec![in alloc; 2u64]?))?;
    assert_eq!(rt; sink.write(b"abcd").unwrap_or(9), 3);
    assert_eq!(rt; sink.write(b"d").is_err(), true, "the second call fails");
    assert_eq!(rt; sink.write(b"").unwrap_or(9), 0);
    assert_eq!(rt; sink.write(b"def").unwrap_or(9), 2, "the room that is left");
    assert_eq!(rt; sink.write(b"f").is_err(), true, "no room is left");
    assert_eq!(rt; sink.write(b"").unwrap_or(9), 0);
    assert_eq!(rt; sink.taken(), b"abcde".as_slice());
    assert_eq!(rt; SureSink.write(b"abc").unwrap_or(9), 3);
    Ok(())
}

#[test]
fn says_how_a_run_ended(rt: HostRuntime) -> Result<(), Fail> {
    let alloc = rt.alloc();
    let path = FilePath::of(alloc, "n.zig")?;
    let limit = Status::Limit {
        which: Which::FileBytes,
        number: 1_048_576,
    };
    let refused = Status::BadScript {
        line: 12,
        reason: Reason::MissingEnd,
    };
    for (status, code, text) in [
        (Status::Module, 0, ""),
        (
            Status::Usage,
            2,
            "usage: zwatch [--once] [--jobs N] [--shards N] --root PATH [PATH...] or --load N",
        ),
        (refused, 3, "script line 12: MissingEnd"),
        (Status::ReadFault, 4, "reading the script failed"),
        (Status::FileFault, 5, "reading a file failed"),
        (Status::NoFile { path }, 6, "no file n.zig"),
        (Status::WriteFault, 7, "writing failed"),
        (Status::Memory, 8, "out of memory"),
        (limit, 9, "limit FileBytes 1048576"),
    ] {
        assert_eq!(rt; status.code(), code);
        assert_eq!(rt; status.to_string(alloc)?.as_str(), text);
    }
    Ok(())
}
