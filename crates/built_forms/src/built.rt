// Which forms are built, one case a rule of the grammar.
ghost use Rattle.std.specs.Prelude.{◌≡◌, IfOk, slice_get};
ghost use Rattle.built_forms.specs.Built as spec;
ghost use Rattle.zir_scope.specs.Syntax.{inside_of, row_in};

use crate::rows::{begins_with, behind_pub, has_word, holds, kind_at, rule_at};
use std::alloc::{AllocError, Global};
use zig_tree::{Kid, Rule, TokenKind, same_kind, same_rule};
use zir_form::{Primitive, name_of, primitive_of, token_bytes};
use zir_scope::Outline;

/// A file: its text, and its tree.
#[derive(Debug, Drop)]
pub struct FileForms<'a> {
    pub alloc: Global,
    pub text: &'a [u8],
    pub outline: &'a Outline<'a>,
}

/// Names of declarations, and some of the primitive types and values.
fn is_built_primitive(primitive: Option<Primitive>) -> bool
    ensures { result ≡ spec.is_built_primitive primitive }
{
    match primitive {
        Some(Primitive::Noreturn) => false,
        Some(Primitive::AnyError) => false,
        Some(Primitive::Null) => false,
        Some(Primitive::Undefined) => false,
        Some(_) => true,
        None => true,
    }
}

/// Whether a row is one `return`.
#[tactic(auto, unfolding(crate::specs::Built::is_return, zir_scope::specs::Syntax::row_in, zir_scope::specs::Syntax::inside_of))]
fn is_return(outline: &Outline<'_>, row: &[Kid]) -> bool
    ensures { result ≡ spec.is_return (row_in outline.now row.now) }
{
    match row {
        [Kid::Node(node), more @ ..] => match more {
            [Kid::Node(_), ..] => false,
            [Kid::Token(_), ..] => false,
            [] => {
                same_rule(rule_at(outline, *node), Rule::Primary)
                    && begins_with(outline, TokenKind::KeywordReturn, outline.kids(*node))
            }
        },
        [Kid::Token(_), ..] => false,
        [] => false,
    }
}

/// Whether a row begins with a prototype without `!`.
#[tactic(auto, unfolding(crate::specs::Built::is_built_function, zir_scope::specs::Syntax::row_in, zir_scope::specs::Syntax::inside_of))]
fn is_built_function(outline: &Outline<'_>, row: &[Kid]) -> bool
    ensures { result ≡ spec.is_built_function (row_in outline.now row.now) }
{
    match row {
        [Kid::Node(prototype), ..] => !has_word(outline, TokenKind::Bang, outline.kids(*prototype)),
        [Kid::Token(_), ..] => false,
        [] => false,
    }
}

impl FileForms<'_> {
    /// Whether the token says `memory`, the name under which a module exports its memory.
    fn says_memory(&self, token: u32) -> Result<bool, AllocError>
        ensures { IfOk result (λ b. b ≡ spec.says_memory (spec.words_of self.now) token) }
    {
        match self.outline.tokens.get(token as usize) {
            Some(token) => {
                let name = name_of(self.alloc, self.text, token)?;
                Ok(name.as_slice() == b"memory".as_slice())
            }
            None => Ok(false),
        }
    }

    /// Whether a row begins with that name.
    #[tactic(auto, unfolding(zir_scope::specs::Syntax::row_in))]
    fn leads_with_memory(&self, row: &[Kid]) -> Result<bool, AllocError>
        ensures { IfOk result (λ b. b ≡ spec.leads_with_memory (spec.words_of self.now) (row_in self.now.outline.now row.now)) }
    {
        match row {
            [Kid::Token(name), ..] => self.says_memory(*name),
            [Kid::Node(_), ..] => Ok(false),
            [] => Ok(false),
        }
    }

    /// Whether a prototype has that name.
    #[tactic(auto, unfolding(crate::specs::Built::names_memory, zir_scope::specs::Syntax::row_in))]
    fn names_memory(&self, row: &[Kid]) -> Result<bool, AllocError>
        ensures { IfOk result (λ b. b ≡ spec.names_memory (spec.words_of self.now) (row_in self.now.outline.now row.now)) }
    {
        match row {
            [Kid::Token(_), more @ ..] => self.leads_with_memory(more),
            [Kid::Node(_), ..] => Ok(false),
            [] => Ok(false),
        }
    }

    /// Whether the first form of a row is a function with that name.
    #[tactic(auto, unfolding(crate::specs::Built::first_names_memory, zir_scope::specs::Syntax::row_in, zir_scope::specs::Syntax::inside_of))]
    fn first_names_memory(&self, row: &[Kid]) -> Result<bool, AllocError>
        ensures { IfOk result (λ b. b ≡ spec.first_names_memory (spec.words_of self.now) (row_in self.now.outline.now row.now)) }
    {
        match row {
            [Kid::Node(prototype), ..] => self.names_memory(self.outline.kids(*prototype)),
            [Kid::Token(_), ..] => Ok(false),
            [] => Ok(false),
        }
    }

    #[tactic(auto, unfolding(crate::specs::Built::exports_memory, zir_scope::specs::Syntax::row_in, zir_scope::specs::Syntax::inside_of))]
    fn exports_memory(&self, row: &[Kid]) -> Result<bool, AllocError>
        ensures { IfOk result (λ b. b ≡ spec.exports_memory (spec.words_of self.now) (row_in self.now.outline.now row.now)) }
    {
        match row {
            [Kid::Node(function), ..] => self.first_names_memory(self.outline.kids(*function)),
            [Kid::Token(_), ..] => Ok(false),
            [] => Ok(false),
        }
    }

    /// Constants, functions, and exported functions of another name than the memory's.
    #[tactic(auto, unfolding(crate::specs::Built::is_built_declared, zir_scope::specs::Syntax::row_in))]
    fn is_built_declared(&self, row: &[Kid]) -> Result<bool, AllocError>
        ensures { IfOk result (λ b. b ≡ spec.is_built_declared (spec.words_of self.now) (row_in self.now.outline.now row.now)) }
    {
        match row {
            [Kid::Token(token), more @ ..] => {
                if same_kind(
                    kind_at(self.outline.tokens, *token),
                    TokenKind::KeywordExport,
                ) {
                    Ok(!self.exports_memory(more)?)
                } else {
                    Ok(false)
                }
            }
            [Kid::Node(_), ..] => Ok(true),
            [] => Ok(false),
        }
    }

    /// Whole numbers and names.
    fn is_built_word(&self, token: u32, kind: TokenKind) -> bool
        ensures { result ≡ spec.is_built_word (spec.words_of self.now) token kind }
    {
        if same_kind(kind, TokenKind::Integer) {
            return true;
        }
        let bytes = match self.outline.tokens.get(token as usize) {
            Some(token) => token_bytes(self.text, token),
            None => &[],
        };
        same_kind(kind, TokenKind::Identifier) && is_built_primitive(primitive_of(bytes))
    }

    /// Parentheses, and single words: what begins with this token and goes on so.
    #[tactic(auto, unfolding(zir_scope::specs::Syntax::row_in))]
    fn is_built_led(&self, token: u32, kind: TokenKind, more: &[Kid]) -> bool
        ensures { result ≡ spec.is_built_led (spec.words_of self.now) token kind (row_in self.now.outline.now more.now) }
    {
        match more {
            [Kid::Token(_), ..] => same_kind(kind, TokenKind::LeftParen),
            [Kid::Node(_), ..] => same_kind(kind, TokenKind::LeftParen),
            [] => self.is_built_word(token, kind),
        }
    }

    /// Parentheses, and single words.
    #[tactic(auto, unfolding(crate::specs::Built::is_built_atom, zir_scope::specs::Syntax::row_in))]
    fn is_built_atom(&self, row: &[Kid]) -> bool
        ensures { result ≡ spec.is_built_atom (spec.words_of self.now) (row_in self.now.outline.now row.now) }
    {
        match row {
            [Kid::Token(token), more @ ..] => {
                self.is_built_led(*token, kind_at(self.outline.tokens, *token), more)
            }
            [Kid::Node(_), ..] => false,
            [] => false,
        }
    }

    /// Whether a form is built, by the rule of the form that holds it, its own rule, and what it holds.
    /// What it holds is judged by itself.
    #[tactic(auto, unfolding(crate::specs::Built::is_built))]
    pub fn is_built(&self, around: Rule, rule: Rule, row: &[Kid]) -> Result<bool, AllocError>
        ensures { IfOk result (λ b. b ≡ spec.is_built (spec.words_of self.now) around rule (row_in self.now.outline.now row.now)) }
    {
        Ok(match rule {
            Rule::Root | Rule::Member | Rule::Prototype => true,
            Rule::Declaration => self.is_built_declared(behind_pub(self.outline, row))?,
            Rule::Variable => begins_with(self.outline, TokenKind::KeywordConst, row),
            Rule::Function => is_built_function(self.outline, row),
            Rule::Block => same_rule(around, Rule::Function),
            Rule::Statement => holds(self.outline, Rule::Body, row),
            Rule::Body => holds(self.outline, Rule::Assignment, row),
            Rule::Assignment => is_return(self.outline, row),
            Rule::Primary => same_rule(around, Rule::Assignment),
            Rule::Atom => self.is_built_atom(row),
            _ => false,
        })
    }

    /// Whether a form is a `test`, which is never analysed.
    #[tactic(auto, unfolding(crate::specs::Built::is_test))]
    pub fn is_test(&self, rule: Rule, row: &[Kid]) -> bool
        ensures { result ≡ spec.is_test rule (row_in self.now.outline.now row.now) }
    {
        match rule {
            Rule::Declaration => begins_with(self.outline, TokenKind::KeywordTest, row),
            _ => false,
        }
    }
}
