// What is in scope as the text is read, and what was found so far.
use crate::bindings::Bindings;
use crate::event::Event;
use crate::place::Exit;

/// The locals in scope and the declarations of the containers around, each the latest last, what may be
/// left, the innermost last, and what was found so far.
#[derive(Debug, Drop)]
pub struct Scope {
    pub locals: Bindings,
    pub members: Bindings,
    pub exits: Vec<Exit>,
    pub events: Vec<Event>,
    /// The names of a container's members, while they are compared.
    pub scratch: Bindings,
}
