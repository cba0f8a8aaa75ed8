// The parts of a row as lines are written for them.
use zig_tree::{Rule, TokenKind};

/// A part of a row: a token, or a node with its first token and the line that has its tree.
#[derive(Clone, Copy, Debug)]
pub enum Piece {
    Token {
        token: u32,
        kind: TokenKind,
    },
    Node {
        rule: Rule,
        node: u32,
        first: u32,
        line: u32,
    },
}
