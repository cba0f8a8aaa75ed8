// What holds within a node, and behind it.
ghost use Rattle.std.specs.Prelude.{◌≡◌, ◌++◌, ◌∷◌, [], OnOk, IfOk, None, Some};
ghost use Rattle.zir_scope.specs.declared.outline.Outline.{Outline};
ghost use Rattle.zir_scope.specs.Roles.{role_of};
ghost use Rattle.zir_scope.specs.Scoping as spec;
ghost use Rattle.zir_scope.specs.State.{bound_of, exits_with, place, seen, Extends, Seen};
ghost use Rattle.zir_scope.specs.Syntax.{inside_of, row_in, rule_at};

use crate::outline::Outline;
use crate::place::{Context, Exit, Reading};
use crate::roles::Role;
use crate::scope::Scope;
use std::alloc::AllocError;
use zig_tree::Kid;

impl Outline<'_> {
    /// The token that leads a row; none leads a file's.
    #[tactic(auto, unfolding(crate::specs::Scoping::first_token, crate::specs::Syntax::row_in))]
    pub fn first_token(&self, row: &[Kid]) -> u32
        ensures { result ≡ spec.first_token (row_in self.now row.now) }
    {
        match row {
            [Kid::Token(token), ..] => *token,
            _ => 0,
        }
    }
}

impl Scope {
    /// What bars or a head bound comes into scope.
    #[tactic(auto, unfolding(crate::specs::Scoping::bind))]
    fn bind_pending(&mut self, outline: &Outline<'_>, bound: Option<u32>) -> Result<(), AllocError>
        ensures { OnOk result (seen self.new ≡ record (seen self.old) { locals = spec.bind outline.now.facts.now (seen self.old).members (seen self.old).locals (bound_of outline.now bound) }) }
    {
        match bound {
            Some(node) => self.bind_row(outline, outline.kids(node)),
            None => Ok(()),
        }
    }

    /// One more may be left, where there is one.
    fn leave_next(&mut self, exit: Option<Exit>) -> Result<(), AllocError>
        ensures { OnOk result (seen self.new ≡ record (seen self.old) { exits = exits_with exit (seen self.old).exits }) }
    {
        match exit {
            Some(exit) => self.leave_by(exit),
            None => Ok(()),
        }
    }

    /// A part takes what is bound for it, and nothing around it is left from within.
    #[tactic(auto, using(crate::proofs::Prefixes::prefix_steps))]
    fn enter_walled(
        &mut self,
        outline: &Outline<'_>,
        context: Context,
        in_function: bool,
    ) -> Result<Context, AllocError>
        ensures place { IfOk result (λ c. place outline.now (seen self.new) c ≡ spec.walled in_function (spec.with_bound outline.now.facts.now (place outline.now (seen self.old) context))) }
        ensures events { OnOk result ((seen self.new).events ≡ (seen self.old).events) }
        ensures members { OnOk result ((seen self.new).members ≡ (seen self.old).members) }
        ensures locals { OnOk result (Extends (seen self.old).locals (seen self.new).locals) }
        ensures exits { OnOk result (Extends (seen self.old).exits (seen self.new).exits) }
    {
        self.bind_pending(outline, context.bound)?;
        self.leave_by(Exit::Wall)?;
        Ok(Context {
            reading: context.reading,
            in_function,
            bound: context.bound,
            next_exit: context.next_exit,
        })
    }

    /// A part of an `if` or a loop takes what is bound for it; bars and the parts pass it on.
    #[tactic(auto, using(crate::proofs::Prefixes::prefix_steps))]
    fn enter_bound(
        &mut self,
        outline: &Outline<'_>,
        context: Context,
        role: Role,
    ) -> Result<(), AllocError>
        ensures place { OnOk result (place outline.now (seen self.new) context ≡ spec.enter_bound outline.now.facts.now role (place outline.now (seen self.old) context)) }
        ensures events { OnOk result ((seen self.new).events ≡ (seen self.old).events) }
        ensures members { OnOk result ((seen self.new).members ≡ (seen self.old).members) }
        ensures locals { OnOk result (Extends (seen self.old).locals (seen self.new).locals) }
        ensures exits { OnOk result (Extends (seen self.old).exits (seen self.new).exits) }
    {
        match role {
            Role::Captures | Role::Parts => Ok(()),
            _ => {
                self.bind_pending(outline, context.bound)?;
                self.leave_next(context.next_exit)
            }
        }
    }

    /// A node takes what is bound for it, by how its row is read.
    #[tactic(auto, using(crate::proofs::Prefixes::prefix_steps), unfolding(crate::specs::Scoping::entered))]
    fn entered(
        &mut self,
        outline: &Outline<'_>,
        context: Context,
        role: Role,
    ) -> Result<Context, AllocError>
        ensures place { IfOk result (λ c. place outline.now (seen self.new) c ≡ spec.entered outline.now.facts.now role (place outline.now (seen self.old) context) context.reading) }
        ensures events { OnOk result ((seen self.new).events ≡ (seen self.old).events) }
        ensures members { OnOk result ((seen self.new).members ≡ (seen self.old).members) }
        ensures locals { OnOk result (Extends (seen self.old).locals (seen self.new).locals) }
        ensures exits { OnOk result (Extends (seen self.old).exits (seen self.new).exits) }
    {
        match (context.reading, role) {
            (Reading::Labelled, Role::Block) => self.leave_next(context.next_exit)?,
            (Reading::Bound, _) => self.enter_bound(outline, context, role)?,
            (Reading::Turn, _) => self.bind_pending(outline, context.bound)?,
            (Reading::Function, Role::Block) => return self.enter_walled(outline, context, true),
            (Reading::Deferred, Role::Captures) => {}
            (Reading::Deferred, _) => return self.enter_walled(outline, context, false),
            _ => {}
        }
        Ok(context)
    }

    /// The members of a container, which nothing around them can be left from.
    #[tactic(auto, using(crate::proofs::Prefixes::prefix_steps))]
    fn begin_members(
        &mut self,
        outline: &Outline<'_>,
        context: Context,
        row: &[Kid],
    ) -> Result<Context, AllocError>
        ensures place { IfOk result (λ c. place outline.now (seen self.new) c ≡ spec.begun_members outline.now.facts.now (row_in outline.now row.now) (place outline.now (seen self.old) context)) }
        ensures events { OnOk result ((seen self.new).events ≡ (seen self.old).events) }
        ensures locals { OnOk result ((seen self.new).locals ≡ (seen self.old).locals) }
        ensures members { OnOk result (Extends (seen self.old).members (seen self.new).members) }
        ensures exits { OnOk result (Extends (seen self.old).exits (seen self.new).exits) }
    {
        self.bind_members(outline, outline.first_token(row), row)?;
        self.begin_apart(outline, context)
    }

    /// A container's tag, which stands in no function, and which nothing around it can be left from.
    #[tactic(auto, using(crate::proofs::Prefixes::prefix_steps))]
    fn begin_apart(
        &mut self,
        outline: &Outline<'_>,
        context: Context,
    ) -> Result<Context, AllocError>
        ensures place { IfOk result (λ c. place outline.now (seen self.new) c ≡ spec.begun_container (place outline.now (seen self.old) context)) }
        ensures events { OnOk result ((seen self.new).events ≡ (seen self.old).events) }
        ensures locals { OnOk result ((seen self.new).locals ≡ (seen self.old).locals) }
        ensures members { OnOk result ((seen self.new).members ≡ (seen self.old).members) }
        ensures exits { OnOk result (Extends (seen self.old).exits (seen self.new).exits) }
    {
        self.leave_by(Exit::Wall)?;
        Ok(Context {
            reading: Reading::Plain,
            in_function: false,
            bound: None,
            next_exit: None,
        })
    }

    /// How the row of a node is read from its start.
    #[tactic(auto, using(crate::proofs::Prefixes::prefix_steps), unfolding(crate::specs::Scoping::begun))]
    fn begun(
        &mut self,
        outline: &Outline<'_>,
        context: Context,
        node: u32,
    ) -> Result<Context, AllocError>
        ensures place { IfOk result (λ c. place outline.now (seen self.new) c ≡ spec.begun outline.now.facts.now (role_of (rule_at outline.now.nodes.now node)) (inside_of outline.now node) (place outline.now (seen self.old) context)) }
        ensures events { OnOk result ((seen self.new).events ≡ (seen self.old).events) }
        ensures locals { OnOk result ((seen self.new).locals ≡ (seen self.old).locals) }
        ensures members { OnOk result (Extends (seen self.old).members (seen self.new).members) }
        ensures exits { OnOk result (Extends (seen self.old).exits (seen self.new).exits) }
    {
        match outline.role(node) {
            Role::Members => self.begin_members(outline, context, outline.kids(node)),
            Role::Container => self.begin_apart(outline, context),
            role => Ok(context.begun(role)),
        }
    }

    /// What holds at the first part within a node.
    #[tactic(auto, using(crate::proofs::Prefixes::prefix_steps), unfolding(crate::specs::Scoping::within))]
    pub fn enter(
        &mut self,
        outline: &Outline<'_>,
        context: Context,
        node: u32,
    ) -> Result<Context, AllocError>
        ensures place { IfOk result (λ c. place outline.now (seen self.new) c ≡ spec.within outline.now.facts.now (place outline.now (seen self.old) context) (role_of (rule_at outline.now.nodes.now node)) (inside_of outline.now node)) }
        ensures events { OnOk result ((seen self.new).events ≡ (seen self.old).events) }
        ensures locals { OnOk result (Extends (seen self.old).locals (seen self.new).locals) }
        ensures members { OnOk result (Extends (seen self.old).members (seen self.new).members) }
        ensures exits { OnOk result (Extends (seen self.old).exits (seen self.new).exits) }
    {
        let entered = self.entered(outline, context, outline.role(node))?;
        self.begun(outline, entered, node)
    }

    /// What holds behind a node.
    #[tactic(auto, using(crate::proofs::Prefixes::prefix_steps), unfolding(crate::specs::Scoping::past_node))]
    pub fn past_node(
        &mut self,
        outline: &Outline<'_>,
        context: Context,
        node: u32,
    ) -> Result<Context, AllocError>
        ensures place { IfOk result (λ c. place outline.now (seen self.new) c ≡ spec.past_node outline.now.facts.now (place outline.now (seen self.old) context) (role_of (rule_at outline.now.nodes.now node)) (inside_of outline.now node)) }
        ensures events { OnOk result ((seen self.new).events ≡ (seen self.old).events) }
        ensures members { OnOk result ((seen self.new).members ≡ (seen self.old).members) }
        ensures exits { OnOk result ((seen self.new).exits ≡ (seen self.old).exits) }
        ensures locals { OnOk result (Extends (seen self.old).locals (seen self.new).locals) }
    {
        let row = outline.kids(node);
        match outline.role(node) {
            Role::Statement => self.bind_one(outline, outline.local_name(row))?,
            Role::Parameter => self.bind_one(outline, outline.front_name(row))?,
            Role::Captures | Role::Prototype => return Ok(context.binding(node)),
            _ => return Ok(context.after_part()),
        }
        Ok(context)
    }
}

/// The label of a block, which a loop behind it keeps.
fn label_of(exit: Option<Exit>) -> Option<u32>
    ensures { result ≡ spec.label_of exit }
{
    match exit {
        Some(Exit::Block(label)) => Some(label),
        _ => None,
    }
}

impl Context {
    /// The label before a loop, where there is one.
    fn loop_label(&self) -> Option<u32>
        ensures { result ≡ spec.loop_label self.now.reading self.now.next_exit }
    {
        match self.reading {
            Reading::Labelled => label_of(self.next_exit),
            _ => None,
        }
    }

    /// How the row of a loop is read from its start.
    fn looping(&self) -> Context
        ensures { result ≡ record self.now { reading = Reading.Head; bound = None; next_exit = Some (Exit.Loop (spec.loop_label self.now.reading self.now.next_exit)) } }
    {
        Context {
            reading: Reading::Head,
            in_function: self.in_function,
            bound: None,
            next_exit: Some(Exit::Loop(self.loop_label())),
        }
    }

    /// The parts of an `if` or a loop take what is bound for them.
    fn parts(&self) -> Context
        ensures { (o : Outline) (s : Seen) → place o s result ≡ spec.parts_of self.now.reading (place o s self.now) }
    {
        match self.reading {
            Reading::Bound => *self,
            _ => self.read_as(Reading::Plain),
        }
    }

    /// How the row of a node that is no container's members is read from its start.
    fn begun(&self, role: Role) -> Context
        ensures { (o : Outline) (s : Seen) → place o s result ≡ spec.begun_by role (place o s self.now) }
    {
        match role {
            Role::If => self.read_as(Reading::Head),
            Role::While | Role::For => self.looping(),
            Role::Parts => self.parts(),
            Role::Function => self.read_as(Reading::Function),
            Role::Prototype => self.read_as(Reading::Parameters {
                must: matches!(self.reading, Reading::Function),
            }),
            Role::Labelled => self.read_as(Reading::Labelled),
            Role::Atom => self.read_as(Reading::Atom),
            _ => self.read_as(Reading::Plain),
        }
    }

    /// The names of a node are bound for what is to come.
    fn binding(&self, node: u32) -> Context
        ensures { result ≡ record self.now { bound = Some node } }
    {
        Context {
            reading: self.reading,
            in_function: self.in_function,
            bound: Some(node),
            next_exit: self.next_exit,
        }
    }

    /// A part that has taken what was bound ends it.
    fn after_part(&self) -> Context
        ensures { (o : Outline) (s : Seen) → place o s result ≡ spec.after_part self.now.reading (place o s self.now) }
    {
        match self.reading {
            Reading::Bound => self.read_as(Reading::Plain),
            _ => *self,
        }
    }
}
