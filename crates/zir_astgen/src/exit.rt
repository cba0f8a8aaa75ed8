// Where a `break` or a `continue` goes.
use zw_base::Seq;

/// How many loops and labelled blocks a `break` or a `continue` passes, and the lines of what runs on
/// the way, the innermost first.
#[derive(Debug, Drop)]
pub struct ExitLines {
    pub target: u32,
    pub leaves: Seq<u32>,
}
