// What is found at a token, and how the parts behind it are read.
ghost use Rattle.std.specs.Prelude.{◌≡◌, ◌++◌, OnOk, None, false};
ghost use Rattle.zir_scope.specs.Roles.{mark_of};
ghost use Rattle.zir_scope.specs.Scoping as spec;
ghost use Rattle.zir_scope.specs.declared.outline.Outline.{Outline};
ghost use Rattle.zir_scope.specs.State.{place, seen, Seen};
ghost use Rattle.zir_scope.specs.Syntax.{kind_at, row_in};

use crate::event::Event;
use crate::outline::Outline;
use crate::place::{Context, Exit, Reading};
use crate::roles::Mark;
use crate::scope::Scope;
use std::alloc::AllocError;
use zig_tree::Kid;

impl Outline<'_> {
    /// The label behind a `break` or a `continue`, where there is one.
    #[tactic(auto, unfolding(crate::specs::Scoping::label_after, crate::specs::Syntax::row_in))]
    fn label_after(&self, row: &[Kid]) -> Option<u32>
        ensures { result ≡ spec.label_after self.now.facts.now (row_in self.now row.now) }
    {
        match row {
            [Kid::Token(token), ..] => match self.mark(*token) {
                Mark::Colon => match self.second_name(row) {
                    Some(label) => Some(self.name(label)),
                    None => None,
                },
                _ => None,
            },
            _ => None,
        }
    }
}

/// Whether a label is another one.
fn has_label(label: u32, other: Option<u32>) -> bool
    ensures { result ≡ spec.has_label label other }
{
    match other {
        Some(other) => label == other,
        None => false,
    }
}

/// Whether a loop of this label is left, or what lies around it.
fn loop_left(label: Option<u32>, of: Option<u32>, outer: bool) -> bool
    ensures { result ≡ spec.loop_left label of outer }
{
    match label {
        Some(label) => has_label(label, of) || outer,
        None => true,
    }
}

/// Whether a block of this label is left, which none goes on with, or what lies around it.
fn block_left(on: bool, label: Option<u32>, of: u32, outer: bool) -> bool
    ensures { result ≡ spec.block_left on label of outer }
{
    match label {
        Some(label) if label == of => !on,
        _ => outer,
    }
}

impl Scope {
    /// Whether a `break`, or a `continue` (`on`), with this label or none has something to leave.
    #[tactic(auto, unfolding(crate::specs::Scoping::is_left))]
    fn is_left(&self, on: bool, label: Option<u32>) -> bool
        ensures { result ≡ spec.is_left on label false self.now.exits.items }
    {
        let mut outer = false;
        let mut rest = self.exits.as_slice();
        while let [exit, more @ ..] = rest {
            outer = match *exit {
                Exit::Wall => false,
                Exit::Loop(of) => loop_left(label, of, outer),
                Exit::Block(of) => block_left(on, label, of, outer),
            };
            rest = more;
        }
        outer
    }

    /// A keyword has nothing to leave, unless all is well.
    fn stray(&mut self, is_well: bool, token: u32) -> Result<(), AllocError>
        ensures { OnOk result (seen self.new ≡ record (seen self.old) { events = (seen self.old).events ++ spec.strays is_well token }) }
    {
        if is_well {
            Ok(())
        } else {
            self.emit(Event::Strays { token })
        }
    }

    /// A mention, where an atom begins.
    fn mention(
        &mut self,
        outline: &Outline<'_>,
        context: Context,
        token: u32,
    ) -> Result<(), AllocError>
        ensures { OnOk result (seen self.new ≡ record (seen self.old) { events = (seen self.old).events ++ spec.mentioned outline.now.facts.now (place outline.now (seen self.old) context) token context.reading }) }
    {
        match context.reading {
            Reading::Atom => {
                let target = self.target(outline, token);
                self.emit(Event::Mentions { token, target })
            }
            _ => Ok(()),
        }
    }

    /// What is found at a token, which others follow.
    #[tactic(auto, unfolding(crate::specs::Scoping::word_events))]
    pub fn word(
        &mut self,
        outline: &Outline<'_>,
        context: Context,
        token: u32,
        more: &[Kid],
    ) -> Result<(), AllocError>
        ensures { OnOk result (seen self.new ≡ record (seen self.old) { events = (seen self.old).events ++ spec.word_events outline.now.facts.now (place outline.now (seen self.old) context) token (mark_of (kind_at outline.now.tokens.now token)) (row_in outline.now more.now) }) }
    {
        match outline.mark(token) {
            Mark::Identifier => self.mention(outline, context, token),
            Mark::Try | Mark::Return => self.stray(context.in_function, token),
            Mark::Break => self.stray(self.is_left(false, outline.label_after(more)), token),
            Mark::Continue => self.stray(self.is_left(true, outline.label_after(more)), token),
            _ => Ok(()),
        }
    }
}

impl Context {
    /// A new way to read the next parts, with nothing bound for them.
    pub fn read_as(&self, reading: Reading) -> Context
        ensures { result ≡ record { reading = reading; in_function = self.now.in_function; bound = None; next_exit = None } }
    {
        Context {
            reading,
            in_function: self.in_function,
            bound: None,
            next_exit: None,
        }
    }

    /// The same names bound, and another way to read the next parts.
    fn go_on(&self, reading: Reading) -> Context
        ensures { result ≡ record self.now { reading = reading } }
    {
        Context {
            reading,
            in_function: self.in_function,
            bound: self.bound,
            next_exit: self.next_exit,
        }
    }

    /// How the parts behind a word are read that nothing is bound for.
    fn after_plain(&self, mark: Mark) -> Context
        ensures { (o : Outline) (s : Seen) → place o s result ≡ spec.after_plain mark (place o s self.now) }
    {
        match mark {
            Mark::Defer => self.read_as(Reading::Deferred),
            Mark::Catch | Mark::Arrow | Mark::Else => self.read_as(Reading::Bound),
            Mark::Test => self.read_as(Reading::Function),
            _ => *self,
        }
    }

    /// How the parts behind a word of a head are read.
    fn after_head(&self, mark: Mark) -> Context
        ensures { (o : Outline) (s : Seen) → place o s result ≡ spec.after_head mark (place o s self.now) }
    {
        match mark {
            Mark::RightParen => self.go_on(Reading::Bound),
            _ => *self,
        }
    }

    /// How the parts behind a word are read that names are bound for.
    fn after_bound(&self, mark: Mark) -> Context
        ensures { (o : Outline) (s : Seen) → place o s result ≡ spec.after_bound mark (place o s self.now) }
    {
        match mark {
            Mark::Colon => self.go_on(Reading::Turn),
            _ => *self,
        }
    }

    /// How the parts behind a word are read that a label may lead.
    fn labelled(&self, outline: &Outline<'_>, token: u32, mark: Mark) -> Context
        ensures { (s : Seen) → place outline.now s result ≡ spec.labelled outline.now.facts.now token mark (place outline.now s self.now) }
    {
        match mark {
            Mark::Identifier => Context {
                reading: self.reading,
                in_function: self.in_function,
                bound: self.bound,
                next_exit: Some(Exit::Block(outline.name(token))),
            },
            Mark::Colon => *self,
            _ => self.read_as(Reading::Plain),
        }
    }

    /// How the parts behind a token are read.
    #[tactic(auto, unfolding(crate::specs::Scoping::past_word))]
    pub fn past_word(&self, outline: &Outline<'_>, token: u32) -> Context
        ensures { (s : Seen) → place outline.now s result ≡ spec.past_word outline.now.facts.now (place outline.now s self.now) token (mark_of (kind_at outline.now.tokens.now token)) }
    {
        let mark = outline.mark(token);
        match self.reading {
            Reading::Plain => self.after_plain(mark),
            Reading::Atom => self.read_as(Reading::Plain),
            Reading::Labelled => self.labelled(outline, token, mark),
            Reading::Head | Reading::Turn => self.after_head(mark),
            Reading::Bound => self.after_bound(mark),
            Reading::Function | Reading::Parameters { .. } | Reading::Deferred => *self,
        }
    }
}
