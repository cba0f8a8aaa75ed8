// Runs over the outside in memory.
use crate::run::{opened, run_once};
use crate::words::Words;
use std::alloc::{AllocError, Global};
use std::test::Fail;
use zw_base::limits::FILES;
use zw_base::{Bytes, FilePath, MemFiles, MemSink, Seq, SureFiles, SureSink};

/// The module of `export fn f() u32 { return 7; }`.
const MODULE: &[u8; 60] =
    b"\x00asm\x01\x00\x00\x00\x01\x05\x01\x60\x00\x01\x7f\x03\x02\x01\x00\x05\x03\x01\x00\x10\x06\x09\x01\x7f\x01\x41\x80\x80\xc0\x00\x0b\x07\x0e\x02\x06memory\x02\x00\x01f\x00\x00\x0a\x07\x01\x05\x00\x41\x07\x0f\x0b";

const HEAD: &str = "update 1 module 60 analysed 3 reused 0\n";

const SEVEN: &[u8] = b"export fn f() u32 { return 7; }";

fn words(alloc: Global, path: &str) -> Result<Vec<String>, Fail> {
    let mut words = Vec::new(alloc);
    for word in ["--once", "--root", path, path] {
        words.push(String::from_str(alloc, word)?)?;
    }
    Ok(words)
}

fn files(alloc: Global, text: &[u8]) -> Result<Seq<(FilePath, Bytes)>, Fail> {
    let path = FilePath::of(alloc, "m.zig")?;
    let text = Bytes::of(Vec::from_slice(alloc, text)?);
    Ok(Seq::of(vec![in alloc; (path, text)]?))
}

fn calls(alloc: Global, number: Option<u64>) -> Result<Seq<u64>, AllocError> {
    let mut numbers = Vec::new(alloc);
    if let Some(number) = number {
        numbers.push(number)?;
    }
    Ok(Seq::of(numbers))
}

/// The answer to `export fn f() u32 { return 7; }`.
fn whole(alloc: Global) -> Result<Vec<u8>, AllocError> {
    let mut text = Vec::from_slice(alloc, HEAD.as_bytes())?;
    text.extend_from_slice(MODULE)?;
    text.push(b'\n')?;
    Ok(text)
}

/// A text, how many `(` follow it, and what a run over it writes and how it ends.
const ROWS: [(&str, usize, &[u8], u8); 9] = [
    (
        "export fn f() u32 { return 7; }",
        0,
        b"update 1 module 60 analysed 3 reused 0\n\x00asm\x01\x00\x00\x00\x01\x05\x01\x60\x00\x01\x7f\x03\x02\x01\x00\x05\x03\x01\x00\x10\x06\x09\x01\x7f\x01\x41\x80\x80\xc0\x00\x0b\x07\x0e\x02\x06memory\x02\x00\x01f\x00\x00\x0a\x07\x01\x05\x00\x41\x07\x0f\x0b\n",
        0,
    ),
    (
        "export fn abc() u32 { return 4294967295; }",
        0,
        b"update 1 module 62 analysed 3 reused 0\n\x00asm\x01\x00\x00\x00\x01\x05\x01\x60\x00\x01\x7f\x03\x02\x01\x00\x05\x03\x01\x00\x10\x06\x09\x01\x7f\x01\x41\x80\x80\xc0\x00\x0b\x07\x10\x02\x06memory\x02\x00\x03abc\x00\x00\x0a\x07\x01\x05\x00\x41\x7f\x0f\x0b\n",
        0,
    ),
    (
        "export fn f() u32 { return 4294967296; }",
        0,
        b"update 1 errors 1 analysed 3 reused 0\nm.zig:1:28: error: E308 integer does not fit its type\n",
        1,
    ),
    (
        "export fn f() u32 { return 7 }",
        0,
        b"update 1 errors 1 analysed 0 reused 0\nm.zig:1:30: error: E111 unexpected token\n",
        1,
    ),
    (
        "const big = 170141183460469231731687303715884105728;\nexport fn f() u32 { return if (big > 0) 1 else 2; }",
        0,
        b"update 1 errors 1 analysed 0 reused 0\nm.zig:1:13: error: E104 bad number\n",
        1,
    ),
    (
        "const x = ",
        197,
        b"update 1 errors 1 analysed 0 reused 0\nm.zig:1:207: error: E112 nested too deep\n",
        1,
    ),
    (
        "const x = ",
        196,
        b"update 1 errors 1 analysed 0 reused 0\nm.zig:1:207: error: E111 unexpected token\n",
        1,
    ),
    (
        "fn f(x: u32) void { const y = 1; }",
        0,
        b"update 1 errors 2 analysed 0 reused 0\nm.zig:1:6: error: E203 name is never used\nm.zig:1:27: error: E203 name is never used\n",
        1,
    ),
    (
        "const s = \"\\q\";",
        0,
        b"update 1 errors 1 analysed 0 reused 0\nm.zig:1:12: error: E102 bad escape\n",
        1,
    ),
];

/// Each answer whole, by a sink that takes seven bytes a call.
#[test]
fn writes_what_each_text_answers(rt: HostRuntime) -> Result<(), Fail> {
    let alloc = rt.alloc();
    for (text, open, wanted, code) in ROWS {
        let mut text = Vec::from_slice(alloc, text.as_bytes())?;
        for _ in 0..open {
            text.push(b'(')?;
        }
        let mut held = SureFiles::new(files(alloc, text.as_slice())?);
        let mut out = MemSink::new(alloc, 1_000, 7, calls(alloc, None)?)?;
        let words = words(alloc, "m.zig")?;
        let status = run_once(alloc, words.as_slice(), &mut held, &mut out);
        assert_eq!(rt; out.taken(), wanted);
        assert_eq!(rt; status.code(), code);
    }
    Ok(())
}

/// A sink that tells nothing, and a file that is not there.
#[test]
fn ends_without_telling(rt: HostRuntime) -> Result<(), Fail> {
    let alloc = rt.alloc();
    let mut held = SureFiles::new(files(alloc, SEVEN)?);
    for (path, code) in [("m.zig", 0), ("n.zig", 6)] {
        let words = words(alloc, path)?;
        let status = run_once(alloc, words.as_slice(), &mut held, &mut SureSink);
        assert_eq!(rt; status.code(), code, "{path}");
    }
    Ok(())
}

/// At each number of the failing call the sink has the front of the answer, ten bytes a call.
#[test]
fn stops_at_a_failing_sink(rt: HostRuntime) -> Result<(), Fail> {
    let alloc = rt.alloc();
    let text = whole(alloc)?;
    // The head is 39 bytes, in four calls; the rest is 61 bytes, in seven.
    for (call, front) in [
        (1, 0),
        (2, 10),
        (3, 20),
        (4, 30),
        (5, 39),
        (6, 49),
        (11, 99),
    ] {
        let mut held = SureFiles::new(files(alloc, SEVEN)?);
        let mut out = MemSink::new(alloc, 1_000, 10, calls(alloc, Some(call))?)?;
        let status = run_once(
            alloc,
            words(alloc, "m.zig")?.as_slice(),
            &mut held,
            &mut out,
        );
        assert_eq!(rt; status.code(), 7, "call {call}");
        assert_eq!(rt;
            out.taken(),
            text.as_slice().get(..front).unwrap_or(&[]),
            "call {call}"
        );
    }
    let mut held = SureFiles::new(files(alloc, SEVEN)?);
    let mut out = MemSink::new(alloc, 50, 1_000, calls(alloc, None)?)?;
    let status = run_once(
        alloc,
        words(alloc, "m.zig")?.as_slice(),
        &mut held,
        &mut out,
    );
    assert_eq!(rt; status.code(), 7, "a sink that is full");
    assert_eq!(rt; out.taken().len(), 50);
    Ok(())
}

#[test]
fn says_why_a_file_was_not_read(rt: HostRuntime) -> Result<(), Fail> {
    let alloc = rt.alloc();
    let mut out = MemSink::new(alloc, 1_000, 1_000, calls(alloc, None)?)?;
    let mut held = MemFiles::new(files(alloc, SEVEN)?, calls(alloc, Some(1))?);
    let status = run_once(
        alloc,
        words(alloc, "m.zig")?.as_slice(),
        &mut held,
        &mut out,
    );
    assert_eq!(rt; status.code(), 5);
    let status = run_once(
        alloc,
        words(alloc, "n.zig")?.as_slice(),
        &mut held,
        &mut out,
    );
    assert_eq!(rt; status.code(), 6, "the second call does not fail");

    let long = vec![in alloc; b' '; 1_048_577]?;
    let mut held = MemFiles::new(files(alloc, long.as_slice())?, calls(alloc, None)?);
    let status = run_once(
        alloc,
        words(alloc, "m.zig")?.as_slice(),
        &mut held,
        &mut out,
    );
    assert_eq!(rt; status.code(), 9);
    let status = run_once(
        alloc,
        words(alloc, "m//zig")?.as_slice(),
        &mut held,
        &mut out,
    );
    assert_eq!(rt; status.code(), 2);
    assert_eq!(rt; out.taken().len(), 0, "nothing is written");
    Ok(())
}

/// With as many files as there may be, one more is refused before it is looked for.
#[test]
fn counts_files_before_it_reads_them(rt: HostRuntime) -> Result<(), Fail> {
    let alloc = rt.alloc();
    let mut held = Vec::new(alloc);
    let mut paths = Vec::new(alloc);
    for number in 0..FILES {
        let path = format!(in alloc; "f{number}")?;
        held.push((
            FilePath::of(alloc, path.as_str())?,
            Bytes::of(Vec::new(alloc)),
        ))?;
        paths.push(FilePath::of(alloc, path.as_str())?)?;
    }
    paths.push(FilePath::of(alloc, "absent")?)?;
    let asked = Words {
        once: true,
        root: FilePath::of(alloc, "f0")?,
        paths: Seq::of(paths),
        jobs: 1,
        shards: 1,
        load: None,
    };
    match opened(alloc, &asked, &mut SureFiles::new(Seq::of(held))) {
        Ok(_) => Err(Fail::from("a session")),
        Err(status) => {
            assert_eq!(rt; status.to_string(alloc)?.as_str(), "limit Files 1024");
            Ok(())
        }
    }
}
