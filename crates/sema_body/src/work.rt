// A unit on its way.
use air_form::AirBuilder;
use std::alloc::Global;
use trace_log::Trace;

/// What a unit has done so far: the questions that it asked with their answers, the units that it
/// referred to, and its typed body as far as it is made.
#[derive(Drop)]
pub struct Work {
    pub alloc: Global,
    pub trace: Trace,
    pub body: AirBuilder,
}
