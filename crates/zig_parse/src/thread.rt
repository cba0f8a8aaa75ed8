// One way to read the tokens so far: what is still to come, and the nodes that are open.
ghost use Rattle.std.specs.Prelude.{◌≡◌, ◌∷◌, OnOk, IfOk, Some, None};
ghost use Rattle.zig_tree.specs.Kinds.{is_part};
ghost use Rattle.zig_parse.specs.Stack.{first};
ghost use Rattle.zig_parse.specs.Moves as moves;
ghost use Rattle.zig_parse.specs.Threads.{after_read, closed, fresh, hardened, is_deep, met, met_part, opened, received, replaced, risen, with_choices, with_gain, with_part};
ghost use Rattle.zig_parse.specs.Threads as threads;

use crate::choice::Look;
use crate::stack::Stack;
use std::alloc::{AllocError, Global};
use zig_tree::{DEPTH_LIMIT, Group, Part, Rule, TokenKind, same_part};

/// A node that is open. One of the rules that take a single part without a node is no node yet, and
/// not solid, until it has a token of its own or a second part.
#[derive(Clone, Copy, Debug)]
pub struct Frame {
    pub rule: Rule,
    /// How many tokens and nodes it has so far.
    pub parts: u32,
    /// How many nodes lie below it, one in the other.
    pub height: u32,
    pub solid: bool,
}

/// A part that is still to come, and the number of nodes that are open when its turn is.
#[derive(Clone, Copy, Debug)]
pub struct Item {
    pub part: Part,
    pub level: usize,
}

/// One way to read the tokens since a brace: the part that the brace begins, what is to come up to the
/// closing brace, the open nodes, how deep the innermost of them lies, whether a token lies too deep,
/// and the numbers of the tokens at which the second alternative was taken.
#[derive(Debug, Drop)]
pub struct Thread {
    pub goal: Part,
    pub items: Stack<Item>,
    pub frames: Stack<Frame>,
    pub depth: u32,
    pub deep: bool,
    pub choices: Stack<u32>,
}

/// What a thread does before it reads a token.
#[derive(Clone, Copy, Debug)]
pub enum Move {
    /// It closes the innermost node.
    Close,
    /// It replaces a rule.
    Rule(Rule),
    /// It replaces a group.
    Group(Group),
    /// It reads the token.
    Read,
    /// It can't read the token.
    Stop,
}

/// Whether a rule makes no node where it takes one part and no token of its own.
#[tactic(auto, unfolding(crate::specs::Threads::collapses))]
fn collapses(rule: Rule) -> bool
    ensures { result ≡ threads.collapses rule }
{
    matches!(
        rule,
        Rule::Or
            | Rule::And
            | Rule::Compare
            | Rule::Bit
            | Rule::Shift
            | Rule::Add
            | Rule::Multiply
            | Rule::Prefix
            | Rule::Primary
            | Rule::IfExpression
            | Rule::WhileExpression
            | Rule::ForExpression
            | Rule::RestExpression
            | Rule::TypeExpression
            | Rule::TypePrefix
            | Rule::Suffix
    )
}

/// Whether a rule begins with a brace.
#[tactic(auto, unfolding(crate::specs::Threads::is_braced))]
fn is_braced(rule: Rule) -> bool
    ensures { result ≡ threads.is_braced rule }
{
    matches!(rule, Rule::Block | Rule::Initializer | Rule::ContainerBody)
}

/// Whether a group begins with a brace.
fn has_braces(group: Group) -> bool
    ensures { result ≡ threads.has_braces group }
{
    matches!(group, Group::ErrorBraces | Group::SwitchBraces)
}

/// Whether a brace begins a part, and ends it: the first pass reads it by threads of its own.
fn is_apart(part: Part) -> bool
    ensures { result ≡ threads.is_apart part }
{
    match part {
        Part::Rule(rule) => is_braced(rule),
        Part::Group(group) => has_braces(group),
        Part::Token(_) | Part::OneOf(_) => false,
    }
}

/// Whether a second part follows the part that a rule derives.
#[tactic(auto, unfolding(crate::specs::Threads::is_never_alone))]
fn is_never_alone(rule: Rule) -> bool
    ensures { result ≡ threads.is_never_alone rule }
{
    matches!(rule, Rule::TypePrefix)
}

impl Frame {
    /// A node with one more part, below which so many nodes lie.
    pub fn with(self, height: u32) -> Frame
        ensures { result ≡ with_part height self }
    {
        Frame {
            parts: self.parts.saturating_add(1),
            height: self.height.max(height),
            ..self
        }
    }

    /// How many nodes one in the other the open node is as a part, with itself.
    pub fn part_height(self) -> u32
        ensures { result ≡ threads.part_height self }
    {
        if self.solid {
            self.height.saturating_add(1)
        } else {
            self.height
        }
    }
}

impl Thread {
    /// The thread that reads what a part derives, in a node at this depth.
    #[tactic(auto, unfolding(crate::specs::Threads::fresh))]
    pub fn begin(alloc: Global, goal: Part, depth: u32) -> Thread
        ensures { result ≡ fresh goal depth }
    {
        Thread {
            goal,
            items: Stack::new(alloc),
            frames: Stack::new(alloc),
            depth,
            deep: false,
            choices: Stack::new(alloc),
        }
    }

    /// A second thread that has read the same.
    pub fn copy(&self, alloc: Global) -> Result<Thread, AllocError>
        ensures { IfOk result (λ t. t ≡ self.now) }
    {
        Ok(Thread {
            goal: self.goal,
            items: self.items.copy(alloc)?,
            frames: self.frames.copy(alloc)?,
            depth: self.depth,
            deep: self.deep,
            choices: self.choices.copy(alloc)?,
        })
    }

    /// What the thread does next, where what stands in braces is read by a thread of its own or not.
    #[tactic(auto, unfolding(crate::specs::Moves::next_move))]
    pub fn next_move(&self, look: Look, apart: bool) -> Move
        ensures { result ≡ moves.next_move look apart self.now }
    {
        let Some(item) = self.items.top() else {
            return Move::Stop;
        };
        if self.frames.len() > item.level {
            return Move::Close;
        }
        match item.part {
            Part::Token(kind) => reading(zig_tree::same_kind(kind, look.kind)),
            Part::OneOf(class) => reading(class.has(look.kind)),
            Part::Rule(rule) => {
                if apart && is_braced(rule) {
                    reading(zig_tree::same_kind(look.kind, TokenKind::LeftBrace))
                } else {
                    Move::Rule(rule)
                }
            }
            Part::Group(group) => {
                if apart && has_braces(group) {
                    reading(zig_tree::same_kind(look.kind, TokenKind::LeftBrace))
                } else {
                    Move::Group(group)
                }
            }
        }
    }

    /// The part that begins with the next token, a brace, and that another thread reads.
    #[tactic(auto, unfolding(crate::specs::Moves::waits_for))]
    pub fn waits_for(&self) -> Option<Part>
        ensures { result ≡ moves.waits_for self.now }
    {
        let item = self.items.top()?;
        if is_apart(item.part) {
            Some(item.part)
        } else {
            None
        }
    }

    /// Closes the innermost node, and gives it.
    #[tactic(auto, unfolding(crate::specs::Threads::closed))]
    pub fn close(&mut self) -> Option<Frame>
        ensures after { self.new ≡ closed self.old }
        ensures closed_one { result ≡ first self.old.frames }
    {
        let frame = self.frames.pop();
        if let Some(frame) = frame {
            if frame.solid {
                self.depth = self.depth.saturating_sub(1);
            }
            if let Some(outer) = self.frames.top() {
                self.frames.set_top(outer.with(frame.part_height()));
            }
        }
        frame
    }

    /// Makes the innermost node solid, which puts what it has one deeper.
    #[tactic(auto, unfolding(crate::specs::Threads::hardened))]
    fn harden(&mut self, frame: Frame)
        ensures { self.new ≡ hardened frame self.old }
    {
        self.frames.set_top(Frame {
            solid: true,
            ..frame
        });
        self.depth = self.depth.saturating_add(1);
        self.deep = self.deep || is_below_limit(self.depth, frame.height);
    }

    /// A rule begins in the innermost node. A second part makes it a node, and so does the first part
    /// of a type that begins with a prefix, since a second one follows.
    #[tactic(auto, unfolding(crate::specs::Threads::met))]
    pub fn meet(&mut self, rule: Rule)
        ensures { self.new ≡ met rule self.old }
    {
        if let Some(frame) = self.frames.top() {
            if !frame.solid && (frame.parts > 0 || is_never_alone(rule)) {
                self.harden(frame);
            }
        }
    }

    /// Where a part begins that is a rule, the innermost node meets it.
    pub fn meet_part(&mut self, part: Part)
        ensures { self.new ≡ met_part part self.old }
    {
        if let Part::Rule(rule) = part {
            self.meet(rule);
        }
    }

    /// Puts what is read in a node that stands for the one around it.
    pub fn surround(&mut self) -> Result<(), AllocError>
        ensures { OnOk result (self.new ≡ record self.old { frames = threads.surround ∷ self.old.frames }) }
    {
        self.frames.push(Frame {
            rule: Rule::Atom,
            parts: 0,
            height: 0,
            solid: true,
        })
    }

    /// Opens a node.
    #[tactic(auto, unfolding(crate::specs::Threads::opened))]
    pub fn open(&mut self, rule: Rule) -> Result<(), AllocError>
        ensures { OnOk result (self.new ≡ opened rule self.old) }
    {
        let solid = !collapses(rule);
        self.frames.push(Frame {
            rule,
            parts: 0,
            height: 0,
            solid,
        })?;
        if solid {
            self.depth = self.depth.saturating_add(1);
        }
        Ok(())
    }

    /// Puts parts in front of what is to come.
    #[tactic(auto, using(crate::proofs::Steps::put_step), unfolding(crate::specs::Threads::put))]
    pub fn put(&mut self, parts: &[Part]) -> Result<(), AllocError>
        ensures { OnOk result (self.new ≡ threads.put parts.now self.old) }
    {
        let level = self.frames.len();
        let mut k = parts.len();
        while k > 0 {
            k -= 1;
            let part = parts[k];
            self.items.push(Item { part, level })?;
        }
        Ok(())
    }

    /// Replaces the first of what is to come, a rule, by its parts in a new node.
    #[tactic(auto, unfolding(crate::specs::Threads::replaced))]
    pub fn replace_rule(&mut self, rule: Rule, parts: &[Part]) -> Result<(), AllocError>
        ensures { OnOk result (self.new ≡ replaced (Some rule) parts.now self.old) }
    {
        let _ = self.items.pop();
        self.meet(rule);
        self.open(rule)?;
        self.put(parts)
    }

    /// Replaces the first of what is to come, a group, by its parts.
    #[tactic(auto, unfolding(crate::specs::Threads::replaced))]
    pub fn replace_group(&mut self, parts: &[Part]) -> Result<(), AllocError>
        ensures { OnOk result (self.new ≡ replaced None parts.now self.old) }
    {
        let _ = self.items.pop();
        self.put(parts)
    }

    /// Reads the token that is the first of what is to come.
    #[tactic(auto, unfolding(crate::specs::Threads::after_read))]
    pub fn read(&mut self)
        ensures { self.new ≡ after_read self.old }
    {
        let _ = self.items.pop();
        if let Some(frame) = self.frames.top() {
            if !frame.solid {
                self.harden(frame);
            } else {
                self.deep = self.deep || is_below_limit(self.depth, 0);
            }
        }
        self.gain(0);
    }

    /// The innermost node gains a part, below which so many nodes lie.
    fn gain(&mut self, height: u32)
        ensures { self.new ≡ with_gain height self.old }
    {
        if let Some(frame) = self.frames.top() {
            self.frames.set_top(frame.with(height));
        }
    }

    /// What another thread read for the first of what is to come is there.
    #[tactic(auto, unfolding(crate::specs::Threads::received))]
    pub fn receive(&mut self, height: u32)
        ensures { self.new ≡ received height self.old }
    {
        let _ = self.items.pop();
        self.gain(height);
        self.deep = self.deep || is_below_limit(self.depth, height);
    }

    /// Choices that were made inside a part come in front.
    pub fn put_choices(&mut self, inner: &Stack<u32>) -> Result<(), AllocError>
        ensures { OnOk result (self.new ≡ with_choices inner.now self.old) }
    {
        self.choices.put_front(inner)
    }

    /// Closes all nodes, and gives how many lie one in the other.
    #[tactic(auto, unfolding(crate::specs::Threads::risen))]
    pub fn finish(&mut self) -> u32
        ensures height { result ≡ risen 0 self.old.frames }
        ensures goal { self.new.goal ≡ self.old.goal }
        ensures choices { self.new.choices ≡ self.old.choices }
    {
        let mut height = 0;
        while let Some(frame) = self.frames.pop() {
            height = frame.with(height).part_height();
        }
        height
    }
}

/// The move at a token that fits or not.
fn reading(fits: bool) -> Move
    ensures { result ≡ moves.reading fits }
{
    if fits { Move::Read } else { Move::Stop }
}

/// Whether a token lies too deep, so many nodes below a node at this depth.
#[tactic(auto, unfolding(crate::specs::Threads::is_deep))]
fn is_below_limit(depth: u32, height: u32) -> bool
    ensures { result ≡ is_deep depth height }
{
    depth.saturating_add(height) > DEPTH_LIMIT
}

/// Whether what one thread in a brace reads to its end another does too.
#[tactic(auto, unfolding(crate::specs::Moves::goes_as_far))]
pub fn goes_as_far(a: &Thread, b: &Thread) -> bool
    ensures { result ≡ moves.goes_as_far a.now b.now }
{
    same_part(a.goal, b.goal) && covers_items(&a.items, &b.items)
}

/// Whether the first of what is to come reads at least what the other does, and the rest is the same.
#[tactic(auto, using(crate::proofs::Steps::cover_steps))]
fn covers_items(a: &Stack<Item>, b: &Stack<Item>) -> bool
    ensures { result ≡ moves.covers_items a.now b.now }
{
    match (a.top(), b.top()) {
        (Some(first), Some(other)) => {
            covers(first.part, other.part) && same_items(a.below(), b.below())
        }
        (None, None) => true,
        (Some(_), None) | (None, Some(_)) => false,
    }
}

/// Whether a part derives at least what another does: a name behind a dot is one of what may stand there.
fn covers(a: Part, b: Part) -> bool
    ensures { result ≡ moves.covers a b }
{
    same_part(a, b)
        || same_part(a, Part::Group(Group::DotAtom))
            && same_part(b, Part::Token(TokenKind::Identifier))
}

/// Whether two lists of what is to come have the same parts.
#[tactic(auto, using(crate::proofs::Steps::item_steps))]
fn same_items(a: &[Item], b: &[Item]) -> bool
    ensures { result ≡ moves.same_parts a.now b.now }
{
    if a.len() != b.len() {
        return false;
    }
    for i in 0..a.len() {
        if !same_part(a[i].part, b[i].part) {
            return false;
        }
    }
    true
}
