// Where a form stands.
use trace_log::TextPart;
use type_form::Index;

/// Where a form stands: the part whose text is met, the innermost container or file around it, whether
/// the form is evaluated at comptime, and in a function the type of its result.
#[derive(Clone, Copy, Debug)]
pub struct Frame {
    pub part: TextPart,
    pub container: Index,
    pub is_comptime: bool,
    pub result: Option<Index>,
}
