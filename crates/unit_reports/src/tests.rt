// Reports of a few units, and an export name that stands twice.

use crate::{LinkAnswer, UnitReport, Waiting, link_told, tell};
use diag_order::Diag;
use std::alloc::{AllocError, Global};
use std::test::Fail;
use wasm_form::{FnCode, FnType};
use wasm_link::{Function, Place};
use zw_base::{Bytes, DiagCode, FilePath, Found, Seq, Span};

fn text(alloc: Global, letters: &[u8]) -> Result<Bytes, AllocError> {
    Ok(Bytes::of(Vec::from_slice(alloc, letters)?))
}

/// A diagnostic that is known by the byte at which it stands.
fn found(alloc: Global, start: u32) -> Found {
    Found {
        code: DiagCode::DeclarationLoop,
        span: Span { start, end: start },
        text: Bytes::of(Vec::new(alloc)),
    }
}

fn waits(alloc: Global, next: u32, spelling: &[u8], start: u32) -> Result<UnitReport, AllocError> {
    Ok(UnitReport::Waits(Waiting {
        next,
        text: text(alloc, spelling)?,
        found: found(alloc, start),
    }))
}

/// A function that takes, does and gives nothing, and is exported under a name.
fn function(alloc: Global, spelling: &[u8], name: &[u8], offset: u32) -> Result<Function, Fail> {
    let kind = FnType {
        params: Seq::of(Vec::new(alloc)),
        result: None,
    };
    Ok(Function {
        spelling: text(alloc, spelling)?,
        export: Some(text(alloc, name)?),
        place: Place {
            path: FilePath::of(alloc, "m.zig")?,
            offset,
        },
        code: FnCode {
            kind,
            locals: Seq::of(Vec::new(alloc)),
            body: Seq::of(Vec::new(alloc)),
            relocs: Seq::of(Vec::new(alloc)),
        },
    })
}

/// A cycle of two units, a unit of less spelling on the way to it, one that waits for a number that
/// no unit has, and one unit of each other kind.
fn some_reports(alloc: Global) -> Result<Vec<UnitReport>, Fail> {
    let waiting: [(u32, &[u8], u32); 4] = [
        (2, b"b", 10),
        (2, b"A", 11),
        (0, b"a", 12),
        (7, b"", 13),
    ];
    let mut reports = Vec::new(alloc);
    for (next, spelling, start) in waiting {
        reports.push(waits(alloc, next, spelling, start)?)?;
    }
    reports.push(UnitReport::Failed(found(alloc, 14)))?;
    reports.push(UnitReport::Silent)?;
    reports.push(UnitReport::Code(function(alloc, b"f", b"f", 15)?))?;
    Ok(reports)
}

#[test]
fn tells_each_cycle_once(rt: HostRuntime) -> Result<(), Fail> {
    let alloc = rt.alloc();
    let reports = some_reports(alloc)?;
    let count = reports.len();
    assert!(rt; count < 100);
    let told = tell(alloc, reports)?;
    let starts: Vec<u32> = told.founds.iter().map(|f| f.span.start).collect(alloc)?;
    assert_eq!(rt; starts.as_slice(), [14, 12].as_slice());
    let offsets: Vec<u32> = told
        .functions
        .iter()
        .map(|f| f.place.offset)
        .collect(alloc)?;
    assert_eq!(rt; offsets.as_slice(), [15].as_slice());
    Ok(())
}

/// The diagnostics of a refusal.
fn refusal(answer: LinkAnswer) -> Option<Seq<Diag>> {
    match answer {
        LinkAnswer::Module(_module) => None,
        LinkAnswer::Refused(diags) => Some(diags),
    }
}

#[test]
fn tells_a_double_name_at_each_function(rt: HostRuntime) -> Result<(), Fail> {
    let alloc = rt.alloc();
    let root = FilePath::of(alloc, "m.zig")?;
    let one = vec![in alloc; function(alloc, b"a", b"f", 3)?]?;
    let linked = refusal(link_told(alloc, &root, one)?).is_none();
    assert!(rt; linked);
    let two = vec![in alloc;
        function(alloc, b"b", b"f", 9)?,
        function(alloc, b"a", b"f", 3)?,
    ]?;
    match refusal(link_told(alloc, &root, two)?) {
        Some(diags) => {
            let offsets: Vec<u32> = diags.as_slice().iter().map(|d| d.offset).collect(alloc)?;
            assert_eq!(rt; offsets.as_slice(), [3, 9].as_slice());
        }
        None => assert!(rt; false),
    }
    Ok(())
}
