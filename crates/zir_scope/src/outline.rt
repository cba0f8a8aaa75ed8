// A file's tree as scoping reads it.
ghost use Rattle.zig_tree.specs.Nodes.{AreEarlier};

use crate::facts::Fact;
use zig_tree::{Node, Token};

/// The tokens and the nodes of a file, each node after those that it holds, and what scoping sees of
/// each token's text.
#[derive(Debug, Drop)]
pub struct Outline<'a> {
    pub tokens: &'a [Token],
    pub nodes: &'a [Node],
    pub facts: &'a [Fact],
    ghost kids_are_earlier: { AreEarlier nodes.now },
}
