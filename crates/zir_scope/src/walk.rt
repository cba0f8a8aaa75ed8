// The walk over a file's tree.
ghost use Rattle.std.specs.Prelude.{◌≡◌, ◌++◌, ◌∷◌, [], length, take, true, OnOk};
ghost use Rattle.zig_tree.specs.Nodes.{are_earlier};
ghost use Rattle.zir_scope.specs.Roles.{role_of};
ghost use Rattle.zir_scope.specs.Binders.{joined};
ghost use Rattle.zir_scope.specs.Changes.{argument_bases, base, changes, first_flag, is_for, other_flags, provided};
ghost use Rattle.zir_scope.specs.Scoping as spec;
ghost use Rattle.zir_scope.specs.State.{place, seen, Extends};
ghost use Rattle.zir_scope.specs.Syntax.{inside_of, row_in, rule_at};

use crate::event::{Event, Sort, Target};
use crate::outline::Outline;
use crate::place::{Context, Reading};
use crate::roles::Role;
use crate::scope::Scope;
use std::alloc::{AllocError, Global};
use zig_tree::Kid;

/// What the names of parameters owe.
#[tactic(auto, unfolding(crate::specs::Scoping::parameter_sort))]
fn parameter_sort(reading: Reading) -> Sort
    ensures { result ≡ spec.parameter_sort reading }
{
    match reading {
        Reading::Parameters { must: true } => Sort::Constant,
        _ => Sort::Given,
    }
}

/// What the name of a local owes.
#[tactic(auto, unfolding(crate::specs::Scoping::local_sort))]
fn local_sort(is_var: bool) -> Sort
    ensures { result ≡ spec.local_sort is_var }
{
    if is_var {
        Sort::Variable
    } else {
        Sort::Constant
    }
}

impl Scope {
    /// The local at the base of an operand may be changed, where it is one.
    #[tactic(auto, unfolding(crate::specs::Scoping::changed))]
    fn change(&mut self, outline: &Outline<'_>, base: Option<u32>) -> Result<(), AllocError>
        ensures { OnOk result (seen self.new ≡ record (seen self.old) { events = (seen self.old).events ++ spec.changed outline.now.facts.now (seen self.old).locals (seen self.old).members (joined base []) }) }
    {
        let Some(token) = base else {
            return Ok(());
        };
        match self.target(outline, token) {
            Target::Local(local) => self.emit(Event::Changes { local }),
            _ => Ok(()),
        }
    }

    /// The locals at the base of what a node may change, seen from within it.
    #[tactic(auto, unfolding(crate::specs::Changes::changes, crate::specs::Scoping::changed, crate::specs::Scoping::changes_within))]
    fn changes(
        &mut self,
        alloc: Global,
        outline: &Outline<'_>,
        context: Context,
        node: u32,
    ) -> Result<(), AllocError>
        ensures { OnOk result (seen self.new ≡ record (seen self.old) { events = (seen self.old).events ++ spec.changes_within outline.now.facts.now (place outline.now (seen self.old) context) (role_of (rule_at outline.now.nodes.now node)) (inside_of outline.now node) }) }
    {
        let row = outline.kids(node);
        if is_for(outline.role(node)) {
            let flags = outline.bar_flags(alloc, row)?;
            return self.change_arguments(outline, flags.as_slice(), row);
        }
        if outline.changes_base(node) {
            self.change(outline, outline.base(row, node))
        } else {
            Ok(())
        }
    }

    /// The locals at the base of those operands of a `for` that are captured by pointer.
    #[tactic(auto, unfolding(crate::specs::Scoping::changed, crate::specs::Changes::argument_bases, crate::specs::Syntax::row_in, crate::specs::Syntax::inside_of))]
    fn change_arguments(
        &mut self,
        outline: &Outline<'_>,
        flags: &[bool],
        row: &[Kid],
    ) -> Result<(), AllocError>
        ensures { OnOk result (seen self.new ≡ record (seen self.old) { events = (seen self.old).events ++ spec.changed outline.now.facts.now (seen self.old).locals (seen self.old).members (argument_bases outline.now.facts.now flags.now (row_in outline.now row.now)) }) }
    {
        let mut rest = row;
        let mut left = flags;
        while let [kid, more @ ..] = rest {
            match *kid {
                Kid::Token(_) => {}
                Kid::Node(node) => {
                    if let Role::ForArgument = outline.role(node) {
                        self.change_argument(outline, left, node)?;
                        left = others(left);
                    }
                }
            }
            rest = more;
        }
        Ok(())
    }

    /// The local at the base of an operand of a `for`, where it is captured by pointer.
    #[tactic(auto, unfolding(crate::specs::Scoping::changed))]
    fn change_argument(
        &mut self,
        outline: &Outline<'_>,
        flags: &[bool],
        node: u32,
    ) -> Result<(), AllocError>
        ensures { OnOk result (seen self.new ≡ record (seen self.old) { events = (seen self.old).events ++ spec.changed outline.now.facts.now (seen self.old).locals (seen self.old).members (joined (provided (first_flag flags.now) (base outline.now.facts.now (inside_of outline.now node))) []) }) }
    {
        if first(flags) {
            self.change(outline, outline.base(outline.kids(node), node))
        } else {
            Ok(())
        }
    }

    /// What a node declares.
    #[tactic(auto, unfolding(crate::specs::Scoping::declared))]
    fn declared(
        &mut self,
        outline: &Outline<'_>,
        context: Context,
        node: u32,
    ) -> Result<(), AllocError>
        ensures { OnOk result (seen self.new ≡ record (seen self.old) { events = (seen self.old).events ++ spec.declared outline.now.facts.now (place outline.now (seen self.old) context) (role_of (rule_at outline.now.nodes.now node)) (inside_of outline.now node) }) }
    {
        let row = outline.kids(node);
        match outline.role(node) {
            Role::Parameter => {
                self.declare_one(
                    outline,
                    outline.front_name(row),
                    parameter_sort(context.reading),
                )
            }
            Role::Statement => {
                let sort = local_sort(outline.is_var_local(row));
                self.declare_one(outline, outline.local_name(row), sort)
            }
            Role::Captures => self.declare_row(outline, row),
            Role::Members => self.repeat_members(outline, row),
            Role::Container => self.emit(Event::Opens {
                token: outline.first_token(row),
            }),
            _ => Ok(()),
        }
    }

    /// What is found behind a node.
    #[tactic(auto, unfolding(crate::specs::Scoping::end_events))]
    fn behind(&mut self, outline: &Outline<'_>, node: u32) -> Result<(), AllocError>
        ensures { OnOk result (seen self.new ≡ record (seen self.old) { events = (seen self.old).events ++ spec.end_events (role_of (rule_at outline.now.nodes.now node)) }) }
    {
        match outline.role(node) {
            Role::Container => self.emit(Event::Closes),
            _ => Ok(()),
        }
    }
}

/// How much was in scope.
#[derive(Clone, Copy, Debug)]
struct Marks {
    locals: usize,
    members: usize,
    exits: usize,
}

impl Scope {
    /// How much is in scope.
    fn marks(&self) -> Marks
        ensures { result ≡ record { locals = length (seen self.now).locals; members = length (seen self.now).members; exits = length (seen self.now).exits } }
    {
        Marks {
            locals: self.locals.len(),
            members: self.members.len(),
            exits: self.exits.len(),
        }
    }

    /// What came into scope since goes out of it.
    fn cut(&mut self, marks: Marks)
        ensures { seen self.new ≡ record (seen self.old) { locals = take marks.locals (seen self.old).locals; members = take marks.members (seen self.old).members; exits = take marks.exits (seen self.old).exits } }
    {
        self.locals.truncate(marks.locals);
        self.members.truncate(marks.members);
        self.exits.truncate(marks.exits);
    }

    /// A node, and all that it holds.
    #[cycle(walk)]
    pub fn visit(
        &mut self,
        alloc: Global,
        outline: &Outline<'_>,
        context: Context,
        node: u32,
    ) -> Result<(), AllocError>
        ensures { OnOk result (seen self.new ≡ record (seen self.old) { events = (seen self.old).events ++ spec.visited outline.now.facts.now (place outline.now (seen self.old) context) (role_of (rule_at outline.now.nodes.now node)) (inside_of outline.now node) }) }
    {
        let marks = self.marks();
        self.declared(outline, context, node)?;
        let inner = self.enter(outline, context, node)?;
        self.changes(alloc, outline, inner, node)?;
        self.walk(alloc, outline, inner, outline.kids(node), node)?;
        self.cut(marks);
        self.behind(outline, node)?;
        Ok(())
    }

    /// A row, from a place on. What comes into scope in it stays.
    #[cycle(walk)]
    #[tactic(auto, using(crate::proofs::Walks::walk_steps, crate::proofs::Trees::earlier_steps, crate::proofs::Prefixes::prefix_steps), unfolding(crate::specs::Syntax::row_in, crate::specs::Syntax::inside_of))]
    pub fn walk(
        &mut self,
        alloc: Global,
        outline: &Outline<'_>,
        context: Context,
        row: &[Kid],
        before: u32,
    ) -> Result<(), AllocError>
        requires { are_earlier before row.now ≡ true }
        ensures events { OnOk result ((seen self.new).events ≡ (seen self.old).events ++ spec.walk outline.now.facts.now (place outline.now (seen self.old) context) (row_in outline.now row.now)) }
        ensures members { OnOk result ((seen self.new).members ≡ (seen self.old).members) }
        ensures exits { OnOk result ((seen self.new).exits ≡ (seen self.old).exits) }
        ensures locals { OnOk result (Extends (seen self.old).locals (seen self.new).locals) }
    {
        let mut rest = row;
        let mut now = context;
        while let [kid, more @ ..] = rest {
            match *kid {
                Kid::Token(token) => {
                    self.word(outline, now, token, more)?;
                    now = now.past_word(outline, token);
                }
                Kid::Node(node) => {
                    self.visit(alloc, outline, now, node)?;
                    now = self.past_node(outline, now, node)?;
                }
            }
            rest = more;
        }
        Ok(())
    }
}

/// Whether a node is a `for`.
fn is_for(role: Role) -> bool
    ensures { result ≡ is_for role }
{
    matches!(role, Role::For)
}

/// The first flag; of none it is unset.
fn first(flags: &[bool]) -> bool
    ensures { result ≡ first_flag flags.now }
{
    match flags {
        [flag, ..] => *flag,
        [] => false,
    }
}

/// The flags behind the first one.
fn others(flags: &[bool]) -> &[bool]
    ensures { result.now ≡ other_flags flags.now }
{
    match flags {
        [_, more @ ..] => more,
        [] => flags,
    }
}
