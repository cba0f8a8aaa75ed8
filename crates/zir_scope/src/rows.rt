// What a tree holds, node by node.
ghost use Rattle.std.specs.Prelude.{◌≡◌, true};
ghost use Rattle.zig_tree.specs.Nodes.{are_earlier};
ghost use Rattle.zir_scope.specs.Roles.{mark_of, role_of};
ghost use Rattle.zir_scope.specs.Syntax.{inside_of, kind_at, row_in, rule_at};

use crate::outline::Outline;
use crate::roles::{Mark, Role, mark_of, role_of};
use zig_tree::{Kid, Rule, TokenKind};

impl Outline<'_> {
    /// What a token is to the scopes.
    pub fn mark(&self, token: u32) -> Mark
        ensures { result ≡ mark_of (kind_at self.now.tokens.now token) }
    {
        match self.tokens.get(token as usize) {
            Some(token) => mark_of(token.kind),
            None => mark_of(TokenKind::End),
        }
    }

    /// What a node is to the scopes.
    pub fn role(&self, node: u32) -> Role
        ensures { result ≡ role_of (rule_at self.now.nodes.now node) }
    {
        match self.nodes.get(node as usize) {
            Some(node) => role_of(node.rule),
            None => role_of(Rule::Root),
        }
    }

    /// What a node holds, which lies before it.
    pub fn kids(&self, node: u32) -> &[Kid]
        ensures row { row_in self.now result.now ≡ inside_of self.now node }
        ensures earlier { are_earlier node result.now ≡ true }
    {
        match self.nodes.get(node as usize) {
            Some(node) => node.kids.as_slice(),
            None => &[],
        }
    }
}
