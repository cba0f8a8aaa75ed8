// What is asked of an atom so far.

/// The line of the value so far, and since the last opening bracket or parenthesis the lines of the
/// expressions and whether `..` stood there.
#[derive(Debug, Drop)]
pub struct Asking {
    pub object: u32,
    pub items: Vec<u32>,
    pub ranged: bool,
}
