// Names: what they stand for, and how they come into scope.
ghost use Rattle.std.specs.Prelude.{◌≡◌, ◌++◌, ◌∷◌, [], OnOk, length, take};
ghost use Rattle.zir_scope.specs.Binders.{declarations_in, joined, members_in, names_in};
ghost use Rattle.zir_scope.specs.Scoping as spec;
ghost use Rattle.zir_scope.specs.State.{seen};
ghost use Rattle.zir_scope.specs.Syntax.{row_in};

use crate::event::{Event, Sort, Target};
use crate::outline::Outline;
use crate::place::Exit;
use crate::scope::Scope;
use std::alloc::AllocError;
use zig_tree::Kid;

impl Outline<'_> {
    /// The name of a token, as the number of the first identifier that has it.
    #[tactic(auto, unfolding(crate::specs::Scoping::name_at))]
    pub fn name(&self, token: u32) -> u32
        ensures { result ≡ spec.name_at self.now.facts.now token }
    {
        match self.facts.get(token as usize) {
            Some(fact) => fact.name,
            None => 0,
        }
    }

    /// Whether a token's name is a primitive's.
    #[tactic(auto, unfolding(crate::specs::Scoping::is_primitive_at))]
    fn is_primitive(&self, token: u32) -> bool
        ensures { result ≡ spec.is_primitive_at self.now.facts.now token }
    {
        match self.facts.get(token as usize) {
            Some(fact) => fact.is_primitive,
            None => false,
        }
    }
}

impl Scope {
    /// What a name stands for.
    #[tactic(auto, unfolding(crate::specs::Scoping::target_of))]
    pub fn target(&self, outline: &Outline<'_>, token: u32) -> Target
        ensures { result ≡ spec.target_of outline.now.facts.now self.now.locals.entries self.now.members.entries token }
    {
        let name = outline.name(token);
        match (self.locals.find(name), self.members.find(name)) {
            (Some(local), _) => Target::Local(local),
            (None, Some(container)) => Target::Declared(container),
            (None, None) if outline.is_primitive(token) => Target::Primitive,
            (None, None) => Target::Unknown,
        }
    }

    /// Whether a name stands for nothing yet.
    #[tactic(auto, unfolding(crate::specs::Scoping::is_free))]
    fn is_free(&self, outline: &Outline<'_>, token: u32) -> bool
        ensures { result ≡ spec.is_free outline.now.facts.now self.now.locals.entries self.now.members.entries token }
    {
        matches!(self.target(outline, token), Target::Unknown)
    }

    /// One more thing is found.
    pub fn emit(&mut self, event: Event) -> Result<(), AllocError>
        ensures { OnOk result (seen self.new ≡ record (seen self.old) { events = (seen self.old).events ++ event ∷ [] }) }
    {
        self.events.push(event)?;
        Ok(())
    }

    /// One more may be left.
    pub fn leave_by(&mut self, exit: Exit) -> Result<(), AllocError>
        ensures { OnOk result (seen self.new ≡ record (seen self.old) { exits = (seen self.old).exits ++ exit ∷ [] }) }
    {
        self.exits.push(exit)?;
        Ok(())
    }

    /// A name comes into scope, where it is free.
    #[tactic(auto, unfolding(crate::specs::Scoping::bound_with))]
    pub fn bind(&mut self, outline: &Outline<'_>, token: u32) -> Result<(), AllocError>
        ensures { OnOk result (seen self.new ≡ record (seen self.old) { locals = spec.bound_with outline.now.facts.now (seen self.old).members (seen self.old).locals token }) }
    {
        if self.is_free(outline, token) {
            self.locals.push(outline.name(token), token)?;
        }
        Ok(())
    }

    /// A name comes into scope, where there is one.
    #[tactic(auto, unfolding(crate::specs::Scoping::bind))]
    pub fn bind_one(&mut self, outline: &Outline<'_>, name: Option<u32>) -> Result<(), AllocError>
        ensures { OnOk result (seen self.new ≡ record (seen self.old) { locals = spec.bind outline.now.facts.now (seen self.old).members (seen self.old).locals (joined name []) }) }
    {
        match name {
            Some(token) => self.bind(outline, token),
            None => Ok(()),
        }
    }

    /// The names that parts of a row bind come into scope.
    #[tactic(auto, unfolding(crate::specs::Scoping::bind, crate::specs::Binders::names_in, crate::specs::Syntax::row_in, crate::specs::Syntax::inside_of))]
    pub fn bind_row(&mut self, outline: &Outline<'_>, row: &[Kid]) -> Result<(), AllocError>
        ensures { OnOk result (seen self.new ≡ record (seen self.old) { locals = spec.bind outline.now.facts.now (seen self.old).members (seen self.old).locals (names_in (row_in outline.now row.now)) }) }
    {
        let mut rest = row;
        while let [kid, more @ ..] = rest {
            match *kid {
                Kid::Token(_) => {}
                Kid::Node(node) => {
                    if let Some(token) = outline.bound_by(node) {
                        self.bind(outline, token)?;
                    }
                }
            }
            rest = more;
        }
        Ok(())
    }

    /// What a name is found to be that is declared here.
    #[tactic(auto, unfolding(crate::specs::Scoping::declaration))]
    pub fn declaration(&self, outline: &Outline<'_>, token: u32, sort: Sort) -> Event
        ensures { result ≡ spec.declaration outline.now.facts.now sort self.now.members.entries self.now.locals.entries token }
    {
        if self.is_free(outline, token) {
            Event::Declares { token, sort }
        } else {
            Event::Repeats { token }
        }
    }
}
