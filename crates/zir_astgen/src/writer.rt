// What writes the lines of a part.
ghost use Rattle.zir_astgen.specs.Firsts.{Firsts};

use crate::source::Source;
use std::alloc::Global;
use zir_form::Lines;

/// The line that stands for no form.
pub const MISSING: u32 = 0;

/// The line for what is left out.
pub const ABSENT: u32 = 1;

/// Writes the lines of a part of a file. The first two lines are those of `MISSING` and `ABSENT`.
#[derive(Debug, Drop)]
pub struct Writer<'a> {
    pub alloc: Global,
    pub source: Source<'a>,
    pub lines: Lines,
    ghost has_firsts: { Firsts lines },
}
