// Names that are declared, and members that repeat a name.
ghost use Rattle.std.specs.Prelude.{◌≡◌, ◌++◌, ◌∷◌, [], OnOk};
ghost use Rattle.zir_scope.specs.Binders.{declarations_in, joined, members_in, names_in};
ghost use Rattle.zir_scope.specs.Scoping as spec;
ghost use Rattle.zir_scope.specs.State.{Extends, seen};
ghost use Rattle.zir_scope.specs.Syntax.{row_in};

use crate::event::{Event, Sort};
use crate::outline::Outline;
use crate::scope::Scope;
use std::alloc::AllocError;
use zig_tree::Kid;

impl Scope {
    /// A name is declared, where there is one.
    #[tactic(auto, unfolding(crate::specs::Scoping::declare))]
    pub fn declare_one(
        &mut self,
        outline: &Outline<'_>,
        name: Option<u32>,
        sort: Sort,
    ) -> Result<(), AllocError>
        ensures { OnOk result (seen self.new ≡ record (seen self.old) { events = (seen self.old).events ++ spec.declare outline.now.facts.now sort (seen self.old).members (seen self.old).locals (joined name []) }) }
    {
        match name {
            Some(token) => self.emit(self.declaration(outline, token, sort)),
            None => Ok(()),
        }
    }

    /// A name is declared, and comes into scope where it is free.
    fn declare(&mut self, outline: &Outline<'_>, token: u32, sort: Sort) -> Result<(), AllocError>
        ensures members { OnOk result ((seen self.new).members ≡ (seen self.old).members) }
        ensures exits { OnOk result ((seen self.new).exits ≡ (seen self.old).exits) }
        ensures events { OnOk result ((seen self.new).events ≡ (seen self.old).events ++ spec.declaration outline.now.facts.now sort (seen self.old).members (seen self.old).locals token ∷ []) }
        ensures locals { OnOk result ((seen self.new).locals ≡ spec.bound_with outline.now.facts.now (seen self.old).members (seen self.old).locals token) }
    {
        self.emit(self.declaration(outline, token, sort))?;
        self.bind(outline, token)
    }

    /// The names that parts of a row bind are declared, each after those before it.
    #[tactic(auto, using(crate::proofs::Prefixes::prefix_steps), unfolding(crate::specs::Scoping::declare, crate::specs::Binders::names_in, crate::specs::Syntax::row_in, crate::specs::Syntax::inside_of))]
    fn declare_names(&mut self, outline: &Outline<'_>, row: &[Kid]) -> Result<(), AllocError>
        ensures others { OnOk result (seen self.new ≡ record (seen self.old) { events = (seen self.new).events; locals = (seen self.new).locals }) }
        ensures events { OnOk result ((seen self.new).events ≡ (seen self.old).events ++ spec.declare outline.now.facts.now Sort.Constant (seen self.old).members (seen self.old).locals (names_in (row_in outline.now row.now))) }
        ensures locals { OnOk result (Extends (seen self.old).locals (seen self.new).locals) }
    {
        let mut rest = row;
        while let [kid, more @ ..] = rest {
            match *kid {
                Kid::Token(_) => {}
                Kid::Node(node) => {
                    if let Some(token) = outline.bound_by(node) {
                        self.declare(outline, token, Sort::Constant)?;
                    }
                }
            }
            rest = more;
        }
        Ok(())
    }

    /// The names that parts of a row bind are declared; they come into scope later.
    #[tactic(auto, using(crate::proofs::Prefixes::prefix_steps))]
    pub fn declare_row(&mut self, outline: &Outline<'_>, row: &[Kid]) -> Result<(), AllocError>
        ensures { OnOk result (seen self.new ≡ record (seen self.old) { events = (seen self.old).events ++ spec.declare outline.now.facts.now Sort.Constant (seen self.old).members (seen self.old).locals (names_in (row_in outline.now row.now)) }) }
    {
        let before = self.locals.len();
        self.declare_names(outline, row)?;
        self.locals.truncate(before);
        Ok(())
    }

    /// Members repeat the names of earlier members.
    #[tactic(auto, unfolding(crate::specs::Scoping::repeated, crate::specs::Binders::members_in, crate::specs::Syntax::row_in, crate::specs::Syntax::inside_of))]
    pub fn repeat_members(&mut self, outline: &Outline<'_>, row: &[Kid]) -> Result<(), AllocError>
        ensures { OnOk result (seen self.new ≡ record (seen self.old) { events = (seen self.old).events ++ spec.repeated outline.now.facts.now [] (members_in (row_in outline.now row.now)) }) }
    {
        self.scratch.truncate(0);
        let mut rest = row;
        while let [kid, more @ ..] = rest {
            match *kid {
                Kid::Token(_) => {}
                Kid::Node(node) => {
                    if let Some(token) = outline.member_in(node) {
                        let name = outline.name(token);
                        match self.scratch.find(name) {
                            Some(_) => self.events.push(Event::Repeats { token })?,
                            None => self.scratch.push(name, 0)?,
                        }
                    }
                }
            }
            rest = more;
        }
        Ok(())
    }

    /// The declarations of a container come into scope.
    #[tactic(auto, unfolding(crate::specs::Scoping::with_members, crate::specs::Binders::declarations_in, crate::specs::Syntax::row_in, crate::specs::Syntax::inside_of))]
    pub fn bind_members(
        &mut self,
        outline: &Outline<'_>,
        begin: u32,
        row: &[Kid],
    ) -> Result<(), AllocError>
        ensures { OnOk result (seen self.new ≡ record (seen self.old) { members = spec.with_members outline.now.facts.now begin (seen self.old).members (declarations_in (row_in outline.now row.now)) }) }
    {
        let mut rest = row;
        while let [kid, more @ ..] = rest {
            match *kid {
                Kid::Token(_) => {}
                Kid::Node(node) => {
                    if let Some(token) = outline.declaration_in(node) {
                        self.members.push(outline.name(token), begin)?;
                    }
                }
            }
            rest = more;
        }
        Ok(())
    }
}
