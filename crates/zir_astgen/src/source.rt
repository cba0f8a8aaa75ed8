// What is known of a file and of the part whose lines are written.
use crate::captured::Captured;
use crate::mentions::Mentions;
use crate::places::Places;
use zir_scope::Outline;

/// A file, and where names stand in a part of it. Names, locals, containers and captures are found by
/// maps, so that no lookup goes through a list.
#[derive(Debug, Drop)]
pub struct Source<'a> {
    pub text: &'a [u8],
    pub outline: &'a Outline<'a>,
    /// What stands at its tokens, in the order of the text.
    pub events: &'a Mentions<'a>,
    /// What its containers capture.
    pub captures: &'a Captured<'a>,
    pub part: &'a Part<'a>,
}

/// How a function is linked.
#[derive(Clone, Copy, Debug)]
pub enum Linkage<'a> {
    /// Within the module alone.
    Within,
    /// It is exported.
    Exported,
    /// It is imported from this module.
    External(&'a [u8]),
}

/// A part: where its first token begins; the tokens that declare its locals; those that begin the
/// containers of its declaration; the locals that the container around it captures, by the tokens that
/// declare them; the tokens that begin the members of the containers around it, the file's first; and
/// of a function how it is linked.
#[derive(Debug, Drop)]
pub struct Part<'a> {
    pub origin: u32,
    pub locals: &'a Places,
    pub containers: &'a Places,
    pub captured: &'a Places,
    pub around: &'a Places,
    pub linkage: Linkage<'a>,
}
