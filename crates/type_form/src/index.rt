// The index by which an interner knows a key.

/// Where a key stands in an interner. Equal indices of one interner stand for equal trees.
#[derive(Clone, Copy, Debug, PartialEq, Eq)]
pub struct Index(pub u64);
