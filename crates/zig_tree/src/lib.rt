//! The forms of Zig's text: tokens with their places, the grammar's rules as data, and the tree of a
//! file.
//!
//! The model: a token is its kind and its span in the file; the text of an identifier, a number or
//! a string is read from the file by that span. A rule is a list of alternatives, one a row, each with
//! the next tokens at which it is taken. `specs/GrammarSentences.antt` says by these rows which tokens
//! are a sentence, which tree it has, and which token of others is refused.
//! The words and symbols are two tables (`specs/TokenTables.antt`), with what looks them up.
//! Public: `TokenKind`, `Token`, `Rule`, `Tree`, `rule_productions` and what they are made of;
//! `is_keyword`, `keyword_kind`, `word_kind`, `symbol_at_front`. The crate stands on `zw_base`.
#![tactic(auto)]

mod grammar;
mod productions;
mod tables;
mod token;
mod tree;

pub use grammar::{
    Group, Part, Production, Rule, TokenClass, When, same_kind, same_part, same_rule,
};
pub use productions::{group_productions, rule_productions};
pub use tables::{KEYWORDS, Row, is_keyword, keyword_kind, symbol_at_front, word_kind};
pub use token::{Token, TokenKind};
pub use tree::{DEPTH_LIMIT, Kid, Node, Tree};
