// The tree of a file: nodes in a list, each after those that it holds.
ghost use Rattle.std.specs.Prelude.{◌≡◌, ◌<◌, length};
ghost use Rattle.zig_tree.specs.Nodes.{AreEarlier};

use crate::grammar::Rule;
use zw_base::{Seq, Span};

/// No node of a tree lies deeper than this; the root lies at 1.
pub const DEPTH_LIMIT: u32 = 200;

/// What a node holds: a token, or another node, by its number in its list.
#[derive(Clone, Copy, Debug, PartialEq, Eq)]
pub enum Kid {
    Token(u32),
    Node(u32),
}

/// A node: the rule that derives it, the bytes from its first token to its last, and what it holds.
#[derive(Debug, Drop)]
pub struct Node {
    pub rule: Rule,
    pub span: Span,
    pub kids: Seq<Kid>,
}

/// The tree of a file: its nodes, and the number of the one that holds all others.
#[derive(Debug, Drop)]
pub struct Tree {
    pub nodes: Seq<Node>,
    pub root: u32,
    /// The root is one of the nodes.
    ghost has_root: { root < length nodes },
    /// A node holds earlier nodes alone.
    ghost kids_are_earlier: { AreEarlier nodes },
}
