// Which names stand at the base of what a form may change.
ghost use Rattle.std.specs.Prelude.{◌≡◌, true, false, IfOk};
ghost use Rattle.zig_tree.specs.Nodes.{are_earlier};
ghost use Rattle.zir_scope.specs.Changes as spec;
ghost use Rattle.zir_scope.specs.Roles.{role_of};
ghost use Rattle.zir_scope.specs.Syntax.{inside_of, row_in, rule_at};

use crate::outline::Outline;
use crate::roles::{Mark, Role};
use std::alloc::{AllocError, Global};
use zig_tree::Kid;

impl Outline<'_> {
    /// Whether a token is the builtin `@field`.
    #[tactic(auto, unfolding(crate::specs::Changes::is_field_at))]
    fn is_field(&self, token: u32) -> bool
        ensures { result ≡ spec.is_field_at self.now.facts.now token }
    {
        match self.facts.get(token as usize) {
            Some(fact) => fact.is_field,
            None => false,
        }
    }

    /// Whether a suffix calls something.
    #[tactic(auto, unfolding(crate::specs::Changes::has_call, crate::specs::Syntax::row_in))]
    fn has_call(&self, row: &[Kid]) -> bool
        ensures { result ≡ spec.has_call (row_in self.now row.now) }
    {
        let mut rest = row;
        while let [kid, more @ ..] = rest {
            match *kid {
                Kid::Token(token) => {
                    if is_call(self.mark(token)) {
                        return true;
                    }
                }
                Kid::Node(_) => {}
            }
            rest = more;
        }
        false
    }

    /// Whether an operand leads a row and an operator follows it.
    #[tactic(auto, unfolding(crate::specs::Changes::is_assigned, crate::specs::Syntax::row_in))]
    fn is_assigned(&self, row: &[Kid]) -> bool
        ensures { result ≡ spec.is_assigned (row_in self.now row.now) }
    {
        match row {
            [Kid::Node(_), more @ ..] => self.is_followed(more),
            _ => false,
        }
    }

    /// Whether a token leads a row.
    #[tactic(auto, unfolding(crate::specs::Changes::is_followed, crate::specs::Syntax::row_in))]
    fn is_followed(&self, row: &[Kid]) -> bool
        ensures { result ≡ spec.is_followed (row_in self.now row.now) }
    {
        matches!(row, [Kid::Token(_), ..])
    }

    /// Whether the last operator before the operand of a row is `&`.
    #[tactic(auto, unfolding(crate::specs::Changes::is_addressed, crate::specs::Syntax::row_in))]
    fn is_addressed(&self, row: &[Kid]) -> bool
        ensures { result ≡ spec.is_addressed false (row_in self.now row.now) }
    {
        let mut rest = row;
        let mut last = false;
        while let [kid, more @ ..] = rest {
            match *kid {
                Kid::Token(token) => last = is_ampersand(self.mark(token)),
                Kid::Node(_) => return last,
            }
            rest = more;
        }
        false
    }

    /// Whether a suffix, up to its first call, slices what stands before, or its first call is a
    /// method's.
    #[tactic(auto, unfolding(crate::specs::Changes::is_taken, crate::specs::Syntax::row_in))]
    fn is_taken(&self, row: &[Kid]) -> bool
        ensures { result ≡ spec.is_taken false (row_in self.now row.now) }
    {
        let mut rest = row;
        let mut named = false;
        while let [kid, more @ ..] = rest {
            match *kid {
                Kid::Token(token) => match self.mark(token) {
                    Mark::Ellipsis => return true,
                    Mark::LeftParen => return named,
                    other => named = is_name_mark(other),
                },
                Kid::Node(_) => named = false,
            }
            rest = more;
        }
        false
    }

    /// Whether a row has `*`, so that its bars capture by pointer.
    #[tactic(auto, unfolding(crate::specs::Changes::has_asterisk, crate::specs::Syntax::row_in))]
    fn has_asterisk(&self, row: &[Kid]) -> bool
        ensures { result ≡ spec.has_asterisk (row_in self.now row.now) }
    {
        let mut rest = row;
        while let [kid, more @ ..] = rest {
            match *kid {
                Kid::Token(token) => {
                    if is_asterisk(self.mark(token)) {
                        return true;
                    }
                }
                Kid::Node(_) => {}
            }
            rest = more;
        }
        false
    }

    /// Whether bars in a row, or in the parts of an `if` or a loop there, capture by pointer.
    #[tactic(auto, using(crate::proofs::Trees::earlier_steps), unfolding(crate::specs::Changes::points, crate::specs::Syntax::row_in, crate::specs::Syntax::inside_of))]
    fn points(&self, row: &[Kid], before: u32) -> bool
        requires { are_earlier before row.now ≡ true }
        ensures { result ≡ spec.points (row_in self.now row.now) }
    {
        let mut rest = row;
        while let [kid, more @ ..] = rest {
            match *kid {
                Kid::Token(_) => {}
                Kid::Node(node) => {
                    let points = match self.role(node) {
                        Role::Captures => self.has_asterisk(self.kids(node)),
                        Role::Parts => self.points(self.kids(node), node),
                        _ => false,
                    };
                    if points {
                        return true;
                    }
                }
            }
            rest = more;
        }
        false
    }

    /// Whether a node is a prong that captures by pointer.
    #[tactic(auto, unfolding(crate::specs::Changes::prong_points))]
    fn prong_points(&self, node: u32) -> bool
        ensures { result ≡ spec.prong_points (role_of (rule_at self.now.nodes.now node)) (inside_of self.now node) }
    {
        match self.role(node) {
            Role::Prong => self.points(self.kids(node), node),
            _ => false,
        }
    }

    /// Whether a prong of a switch captures by pointer.
    #[tactic(auto, unfolding(crate::specs::Changes::prongs_point, crate::specs::Syntax::row_in, crate::specs::Syntax::inside_of))]
    fn prongs_point(&self, row: &[Kid]) -> bool
        ensures { result ≡ spec.prongs_point (row_in self.now row.now) }
    {
        let mut rest = row;
        while let [kid, more @ ..] = rest {
            match *kid {
                Kid::Token(_) => {}
                Kid::Node(node) => {
                    if self.prong_points(node) {
                        return true;
                    }
                }
            }
            rest = more;
        }
        false
    }

    /// Whether bars that capture by pointer lead a row.
    #[tactic(auto, unfolding(crate::specs::Changes::leads_pointer, crate::specs::Syntax::row_in, crate::specs::Syntax::inside_of))]
    fn leads_pointer(&self, row: &[Kid]) -> bool
        ensures { result ≡ spec.leads_pointer (row_in self.now row.now) }
    {
        match row {
            [Kid::Node(node), ..] => match self.role(*node) {
                Role::Captures => self.has_asterisk(self.kids(*node)),
                _ => false,
            },
            _ => false,
        }
    }

    /// Whether the first operator of a row is a `catch` that captures by pointer.
    #[tactic(auto, unfolding(crate::specs::Changes::catches, crate::specs::Syntax::row_in))]
    fn catches(&self, row: &[Kid]) -> bool
        ensures { result ≡ spec.catches (row_in self.now row.now) }
    {
        match row {
            [Kid::Node(_), more @ ..] => self.is_caught(more),
            _ => false,
        }
    }

    /// Whether a `catch` that captures by pointer leads a row.
    #[tactic(auto, unfolding(crate::specs::Changes::is_caught, crate::specs::Syntax::row_in))]
    fn is_caught(&self, row: &[Kid]) -> bool
        ensures { result ≡ spec.is_caught (row_in self.now row.now) }
    {
        match row {
            [Kid::Token(token), more @ ..] => match self.mark(*token) {
                Mark::Catch => self.leads_pointer(more),
                _ => false,
            },
            _ => false,
        }
    }

    /// The name at the base of the first operand of a row: the leftmost name through members, indexes,
    /// slices, `.*`, `.?`, parentheses and the first argument of `@field`; a call ends the search.
    #[cycle(base)]
    #[tactic(auto, using(crate::proofs::Trees::earlier_steps), unfolding(crate::specs::Changes::base, crate::specs::Syntax::row_in, crate::specs::Syntax::inside_of))]
    pub fn base(&self, row: &[Kid], before: u32) -> Option<u32>
        requires { are_earlier before row.now ≡ true }
        ensures { result ≡ spec.base self.now.facts.now (row_in self.now row.now) }
    {
        let mut rest = row;
        while let [kid, more @ ..] = rest {
            match *kid {
                Kid::Token(_) => rest = more,
                Kid::Node(node) => {
                    let inside = self.kids(node);
                    return match self.role(node) {
                        Role::Atom => self.atom_base(inside, node),
                        Role::Suffix if !self.has_call(inside) => self.base(inside, node),
                        _ => None,
                    };
                }
            }
        }
        None
    }

    /// The name that an atom is, or that stands at the base of what its parentheses hold first.
    #[cycle(base)]
    #[tactic(auto, unfolding(crate::specs::Changes::atom_base, crate::specs::Syntax::row_in))]
    fn atom_base(&self, row: &[Kid], before: u32) -> Option<u32>
        requires { are_earlier before row.now ≡ true }
        ensures { result ≡ spec.atom_base self.now.facts.now (row_in self.now row.now) (spec.base self.now.facts.now (row_in self.now row.now)) }
    {
        match row {
            [Kid::Token(token), ..] => match self.mark(*token) {
                Mark::Identifier => Some(*token),
                Mark::LeftParen => self.base(row, before),
                Mark::Builtin if self.is_field(*token) => self.base(row, before),
                _ => None,
            },
            _ => None,
        }
    }

    /// Whether each name in bars is captured by pointer.
    #[tactic(auto, unfolding(crate::specs::Changes::flags, crate::specs::Syntax::row_in))]
    fn flags(&self, alloc: Global, row: &[Kid]) -> Result<Vec<bool>, AllocError>
        ensures { IfOk result (λ v. v.items ≡ spec.flags false (row_in self.now row.now)) }
    {
        let mut flags = Vec::new(alloc);
        let mut rest = row;
        let mut last = false;
        while let [kid, more @ ..] = rest {
            match *kid {
                Kid::Token(token) => last = is_asterisk(self.mark(token)),
                Kid::Node(node) => {
                    if let Role::Name = self.role(node) {
                        flags.push(last)?;
                    }
                    last = false;
                }
            }
            rest = more;
        }
        Ok(flags)
    }

    /// The same of the bars in a row.
    #[tactic(auto, unfolding(crate::specs::Changes::bar_flags, crate::specs::Syntax::row_in, crate::specs::Syntax::inside_of))]
    pub fn bar_flags(&self, alloc: Global, row: &[Kid]) -> Result<Vec<bool>, AllocError>
        ensures { IfOk result (λ v. v.items ≡ spec.bar_flags (row_in self.now row.now)) }
    {
        let mut rest = row;
        while let [kid, more @ ..] = rest {
            match *kid {
                Kid::Token(_) => rest = more,
                Kid::Node(node) => match self.role(node) {
                    Role::Captures => return self.flags(alloc, self.kids(node)),
                    _ => rest = more,
                },
            }
        }
        Ok(Vec::new(alloc))
    }

    /// Whether a node changes what stands at the base of its first operand.
    #[tactic(auto, unfolding(crate::specs::Changes::changes_base))]
    pub fn changes_base(&self, node: u32) -> bool
        ensures { result ≡ spec.changes_base (role_of (rule_at self.now.nodes.now node)) (inside_of self.now node) }
    {
        let row = self.kids(node);
        match self.role(node) {
            Role::Assignment => self.is_assigned(row),
            Role::Prefix => self.is_addressed(row),
            Role::Suffix => self.is_taken(row),
            Role::Switch => self.prongs_point(row),
            Role::If | Role::While => self.points(row, node),
            Role::Bit => self.catches(row),
            _ => false,
        }
    }
}

/// Whether a mark begins a call.
fn is_call(mark: Mark) -> bool
    ensures { result ≡ spec.is_call mark }
{
    matches!(mark, Mark::LeftParen)
}

/// Whether a mark is `&`.
fn is_ampersand(mark: Mark) -> bool
    ensures { result ≡ spec.is_ampersand mark }
{
    matches!(mark, Mark::Ampersand)
}

/// Whether a mark is an identifier.
fn is_name_mark(mark: Mark) -> bool
    ensures { result ≡ spec.is_name_mark mark }
{
    matches!(mark, Mark::Identifier)
}

/// Whether a mark is `*`.
fn is_asterisk(mark: Mark) -> bool
    ensures { result ≡ spec.is_asterisk mark }
{
    matches!(mark, Mark::Asterisk)
}
