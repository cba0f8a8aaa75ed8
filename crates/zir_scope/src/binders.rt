// Which tokens of a row declare names.
ghost use Rattle.std.specs.Prelude.{◌≡◌};
ghost use Rattle.zir_scope.specs.Binders as spec;
ghost use Rattle.zir_scope.specs.Roles.{role_of};
ghost use Rattle.zir_scope.specs.Syntax.{inside_of, row_in, rule_at};

use crate::outline::Outline;
use crate::roles::{Mark, Role};
use zig_tree::Kid;

impl Outline<'_> {
    /// The identifier at the front of a row, after `comptime` where that leads it.
    #[tactic(auto, unfolding(crate::specs::Binders::front_name, crate::specs::Syntax::row_in))]
    pub fn front_name(&self, row: &[Kid]) -> Option<u32>
        ensures { result ≡ spec.front_name (row_in self.now row.now) }
    {
        let mut rest = row;
        while let [Kid::Token(token), more @ ..] = rest {
            match self.mark(*token) {
                Mark::Identifier => return Some(*token),
                Mark::Comptime => rest = more,
                _ => return None,
            }
        }
        None
    }

    /// The token after the first one of a row, where it is an identifier.
    #[tactic(auto, unfolding(crate::specs::Binders::second_name, crate::specs::Syntax::row_in))]
    pub fn second_name(&self, row: &[Kid]) -> Option<u32>
        ensures { result ≡ spec.second_name (row_in self.now row.now) }
    {
        match row {
            [Kid::Token(_), more @ ..] => self.front_name(more),
            _ => None,
        }
    }

    /// The name of a function, by the head that leads its row.
    #[tactic(auto, unfolding(crate::specs::Binders::head_name, crate::specs::Syntax::row_in, crate::specs::Syntax::inside_of))]
    fn head_name(&self, row: &[Kid]) -> Option<u32>
        ensures { result ≡ spec.head_name (row_in self.now row.now) }
    {
        match row {
            [Kid::Node(head), ..] => self.second_name(self.kids(*head)),
            _ => None,
        }
    }

    /// The name that a variable, a head or a function declares.
    #[tactic(auto, unfolding(crate::specs::Binders::declared_by))]
    fn declared_by(&self, node: u32) -> Option<u32>
        ensures { result ≡ spec.declared_by (role_of (rule_at self.now.nodes.now node)) (inside_of self.now node) }
    {
        match self.role(node) {
            Role::Variable | Role::Prototype => self.second_name(self.kids(node)),
            Role::Function => self.head_name(self.kids(node)),
            _ => None,
        }
    }

    /// The name that a declaration declares, after the words that lead it.
    #[tactic(auto, unfolding(crate::specs::Binders::declared_name, crate::specs::Syntax::row_in, crate::specs::Syntax::inside_of))]
    pub fn declared_name(&self, row: &[Kid]) -> Option<u32>
        ensures { result ≡ spec.declared_name (row_in self.now row.now) }
    {
        let mut rest = row;
        while let [kid, more @ ..] = rest {
            match *kid {
                Kid::Token(_) => rest = more,
                Kid::Node(node) => return self.declared_by(node),
            }
        }
        None
    }

    /// The name of the local that a node declares, where it is one.
    #[tactic(auto, unfolding(crate::specs::Binders::local_by))]
    fn local_by(&self, node: u32) -> Option<u32>
        ensures { result ≡ spec.local_by (role_of (rule_at self.now.nodes.now node)) (inside_of self.now node) }
    {
        match self.role(node) {
            Role::Variable => self.second_name(self.kids(node)),
            _ => None,
        }
    }

    /// The name of the local that a statement declares, with `comptime` before it or not.
    #[tactic(auto, unfolding(crate::specs::Binders::local_name, crate::specs::Syntax::row_in, crate::specs::Syntax::inside_of))]
    pub fn local_name(&self, row: &[Kid]) -> Option<u32>
        ensures { result ≡ spec.local_name (row_in self.now row.now) }
    {
        let mut rest = row;
        while let [kid, more @ ..] = rest {
            match *kid {
                Kid::Token(token) => match self.mark(token) {
                    Mark::Comptime => rest = more,
                    _ => return None,
                },
                Kid::Node(node) => return self.local_by(node),
            }
        }
        None
    }

    /// Whether a row begins with `var`.
    #[tactic(auto, unfolding(crate::specs::Binders::begins_var, crate::specs::Syntax::row_in))]
    fn begins_var(&self, row: &[Kid]) -> bool
        ensures { result ≡ spec.begins_var (row_in self.now row.now) }
    {
        match row {
            [Kid::Token(token), ..] => matches!(self.mark(*token), Mark::Var),
            _ => false,
        }
    }

    /// Whether the local that a statement declares is a variable.
    #[tactic(auto, unfolding(crate::specs::Binders::is_var_local, crate::specs::Syntax::row_in, crate::specs::Syntax::inside_of))]
    pub fn is_var_local(&self, row: &[Kid]) -> bool
        ensures { result ≡ spec.is_var_local (row_in self.now row.now) }
    {
        let mut rest = row;
        while let [kid, more @ ..] = rest {
            match *kid {
                Kid::Token(_) => rest = more,
                Kid::Node(node) => return self.begins_var(self.kids(node)),
            }
        }
        false
    }

    /// The name that a node in bars, or a parameter, binds.
    #[tactic(auto, unfolding(crate::specs::Binders::bound_by))]
    pub fn bound_by(&self, node: u32) -> Option<u32>
        ensures { result ≡ spec.bound_by (role_of (rule_at self.now.nodes.now node)) (inside_of self.now node) }
    {
        match self.role(node) {
            Role::Name | Role::Parameter => self.front_name(self.kids(node)),
            _ => None,
        }
    }

    /// The name of a member, by its declaration or field, which leads its row.
    #[tactic(auto, unfolding(crate::specs::Binders::member_name, crate::specs::Syntax::row_in, crate::specs::Syntax::inside_of))]
    fn member_name(&self, row: &[Kid]) -> Option<u32>
        ensures { result ≡ spec.member_name (row_in self.now row.now) }
    {
        match row {
            [Kid::Node(node), ..] => match self.role(*node) {
                Role::Declaration => self.declared_name(self.kids(*node)),
                Role::Field => self.front_name(self.kids(*node)),
                _ => None,
            },
            _ => None,
        }
    }

    /// The name of a node that is a member.
    #[tactic(auto, unfolding(crate::specs::Binders::member_in))]
    pub fn member_in(&self, node: u32) -> Option<u32>
        ensures { result ≡ spec.member_in (role_of (rule_at self.now.nodes.now node)) (inside_of self.now node) }
    {
        match self.role(node) {
            Role::Member => self.member_name(self.kids(node)),
            _ => None,
        }
    }

    /// The name that a member declares; a field declares none.
    #[tactic(auto, unfolding(crate::specs::Binders::declaration_name, crate::specs::Syntax::row_in, crate::specs::Syntax::inside_of))]
    fn declaration_name(&self, row: &[Kid]) -> Option<u32>
        ensures { result ≡ spec.declaration_name (row_in self.now row.now) }
    {
        match row {
            [Kid::Node(node), ..] => match self.role(*node) {
                Role::Declaration => self.declared_name(self.kids(*node)),
                _ => None,
            },
            _ => None,
        }
    }

    /// The name that a node declares that is a member.
    #[tactic(auto, unfolding(crate::specs::Binders::declaration_in))]
    pub fn declaration_in(&self, node: u32) -> Option<u32>
        ensures { result ≡ spec.declaration_in (role_of (rule_at self.now.nodes.now node)) (inside_of self.now node) }
    {
        match self.role(node) {
            Role::Member => self.declaration_name(self.kids(node)),
            _ => None,
        }
    }
}
