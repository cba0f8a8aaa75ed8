// Diagnostics, before and after they have their place.
use zw_base::{Bytes, DiagCode, FilePath};

/// A diagnostic of a file, at a byte of its text counted from 0.
#[derive(Debug, Drop)]
pub struct Diag {
    pub path: FilePath,
    pub offset: u32,
    pub code: DiagCode,
    /// The text of E326, and else empty.
    pub text: Bytes,
}

/// A diagnostic in its place. Line and column count from 1; the column counts bytes.
#[derive(Debug, Drop)]
pub struct Line {
    pub path: FilePath,
    pub line: u32,
    pub col: u32,
    pub code: DiagCode,
    /// The text of E326, and else empty.
    pub text: Bytes,
}
