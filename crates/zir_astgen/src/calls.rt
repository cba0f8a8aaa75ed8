// Calls of builtins: which are wrong, and which name a file.
ghost use Rattle.std.specs.Prelude.{◌≡◌, ◌++◌, true, IfOk, OnOk, Some, None};
ghost use Rattle.std.specs.List.{filter_map};
ghost use Rattle.zig_tree.specs.Nodes.{are_earlier};
ghost use Rattle.zir_astgen.specs.Calls as spec;
ghost use Rattle.zir_scope.specs.Syntax.{inside_of, kind_at, row_in, rule_at};

use crate::file::FileSource;
use crate::rows::rule_at;
use crate::words::string_in;
use std::alloc::{AllocError, Global};
use zig_tree::{Kid, Rule, Token, TokenKind, same_kind, same_rule};
use zir_form::{Builtin, BuiltinFn, builtin_fn, token_bytes};
use zir_scope::{Outline, found_at};
use zw_base::{DiagCode, Found};

/// What a call of a builtin is.
#[derive(Clone, Copy, Debug)]
pub enum BuiltinCall {
    /// Wrong, by this code: there is no such builtin, or its arguments don't fit.
    Wrong(DiagCode),
    /// An `@import` of the string at this token.
    Import(u32),
    /// Another call.
    Other,
}

/// A call of a builtin, at the token of its name.
#[derive(Clone, Copy, Debug)]
pub struct Called {
    pub token: u32,
    pub call: BuiltinCall,
}

/// The kind of a token; one that isn't there ends the file.
pub fn kind_at(tokens: &[Token], token: u32) -> TokenKind
    ensures { result ≡ kind_at tokens.now token }
{
    match tokens.get(token as usize) {
        Some(token) => token.kind,
        None => TokenKind::End,
    }
}

/// The bytes of a token.
pub fn bytes_at<'a>(text: &'a [u8], tokens: &[Token], token: u32) -> &'a [u8]
    ensures { result.now ≡ spec.bytes_at text.now tokens.now token }
{
    match tokens.get(token as usize) {
        Some(token) => token_bytes(text, token),
        None => &[],
    }
}

/// How many nodes stand in a row: the arguments of a call.
#[tactic(auto, unfolding(crate::specs::Calls::node_count, zir_scope::specs::Syntax::row_in))]
fn node_count(outline: &Outline<'_>, row: &[Kid]) -> usize
    ensures { result ≡ spec.node_count (row_in outline.now row.now) }
{
    let mut count = 0;
    let mut rest = row;
    while let [kid, more @ ..] = rest {
        if let Kid::Node(_) = *kid {
            count += 1;
        }
        rest = more;
    }
    count
}

/// The string literal that the first node of a row is.
#[tactic(auto, unfolding(crate::specs::Calls::first_string, zir_scope::specs::Syntax::row_in, zir_scope::specs::Syntax::inside_of))]
fn first_string(outline: &Outline<'_>, row: &[Kid]) -> Option<u32>
    ensures { result ≡ spec.first_string (row_in outline.now row.now) }
{
    let mut rest = row;
    while let [kid, more @ ..] = rest {
        match *kid {
            Kid::Token(_) => rest = more,
            Kid::Node(node) => {
                return if same_rule(rule_at(outline, node), Rule::Atom) {
                    string_in(outline, outline.kids(node))
                } else {
                    None
                };
            }
        }
    }
    None
}

/// Whether a builtin is `@import`.
pub fn is_import(builtin: Builtin) -> bool
    ensures { result ≡ spec.is_import builtin }
{
    matches!(builtin, Builtin::Import)
}

/// An `@import` with this string literal as its argument, or with none.
fn import_call(string: Option<u32>) -> BuiltinCall
    ensures { result ≡ spec.import_call string }
{
    match string {
        Some(string) => BuiltinCall::Import(string),
        None => BuiltinCall::Wrong(DiagCode::ImportNeedsString),
    }
}

/// What a call is, by its builtin and its arguments.
fn call_of(outline: &Outline<'_>, called: Option<BuiltinFn>, arguments: &[Kid]) -> BuiltinCall
    ensures { result ≡ spec.call_of called (row_in outline.now arguments.now) }
{
    match called {
        Some(called) if called.parameters as usize == node_count(outline, arguments) => {
            if is_import(called.builtin) {
                import_call(first_string(outline, arguments))
            } else {
                BuiltinCall::Other
            }
        }
        _ => BuiltinCall::Wrong(DiagCode::WrongBuiltin),
    }
}

impl FileSource<'_> {
    /// The call that an atom is, if it is one.
    #[tactic(auto, unfolding(crate::specs::Calls::atom_calls, zir_scope::specs::Syntax::row_in))]
    fn atom_calls(&self, row: &[Kid], calls: &mut Vec<Called>) -> Result<(), AllocError>
        ensures { OnOk result (calls.new.items ≡ calls.old.items ++ spec.atom_calls self.now.text.now self.now.outline.now.tokens.now (row_in self.now.outline.now row.now)) }
    {
        let tokens = self.outline.tokens;
        match row {
            [Kid::Token(token), arguments @ ..] => {
                if same_kind(kind_at(tokens, *token), TokenKind::Builtin) {
                    let called = builtin_fn(bytes_at(self.text, tokens, *token));
                    calls.push(Called {
                        token: *token,
                        call: call_of(self.outline, called, arguments),
                    })?;
                }
                Ok(())
            }
            [Kid::Node(_), ..] => Ok(()),
            [] => Ok(()),
        }
    }

    /// The call that a node is by itself, if it is one.
    fn calls_at(&self, node: u32, calls: &mut Vec<Called>) -> Result<(), AllocError>
        ensures { OnOk result (calls.new.items ≡ calls.old.items ++ spec.calls_at self.now.text.now self.now.outline.now.tokens.now (rule_at self.now.outline.now.nodes.now node) (inside_of self.now.outline.now node)) }
    {
        if same_rule(rule_at(self.outline, node), Rule::Atom) {
            self.atom_calls(self.outline.kids(node), calls)
        } else {
            Ok(())
        }
    }

    /// The calls of a node.
    #[cycle(calls)]
    #[tactic(auto, unfolding(crate::specs::Calls::node_calls))]
    fn node_calls(&self, node: u32, calls: &mut Vec<Called>) -> Result<(), AllocError>
        ensures { OnOk result (calls.new.items ≡ calls.old.items ++ spec.node_calls self.now.text.now self.now.outline.now.tokens.now (rule_at self.now.outline.now.nodes.now node) (inside_of self.now.outline.now node)) }
    {
        self.calls_at(node, calls)?;
        self.calls_in(self.outline.kids(node), node, calls)
    }

    /// The calls of builtins in a row, in the order of the text. It goes no deeper than the tree.
    #[cycle(calls)]
    #[tactic(auto, using(zir_scope::proofs::Trees::earlier_steps), unfolding(zir_scope::specs::Syntax::row_in, zir_scope::specs::Syntax::inside_of))]
    pub fn calls_in(
        &self,
        row: &[Kid],
        before: u32,
        calls: &mut Vec<Called>,
    ) -> Result<(), AllocError>
        requires { are_earlier before row.now ≡ true }
        ensures { OnOk result (calls.new.items ≡ calls.old.items ++ spec.calls_in self.now.text.now self.now.outline.now.tokens.now (row_in self.now.outline.now row.now)) }
    {
        let mut rest = row;
        while let [kid, more @ ..] = rest {
            match *kid {
                Kid::Token(_) => {}
                Kid::Node(node) => self.node_calls(node, calls)?,
            }
            rest = more;
        }
        Ok(())
    }
}

/// What is wrong with a call, if anything is.
#[tactic(auto, unfolding(crate::specs::Calls::call_fault))]
fn call_fault(alloc: Global, tokens: &[Token], called: Called) -> Option<Found>
    ensures { result ≡ spec.call_fault tokens.now called }
{
    match called.call {
        BuiltinCall::Wrong(code) => Some(found_at(alloc, tokens, code, called.token)),
        BuiltinCall::Import(_) => None,
        BuiltinCall::Other => None,
    }
}

/// What is wrong with calls: a name that is no builtin or a wrong number of arguments (E207), and an
/// `@import` of anything but one string literal (E206).
pub fn call_faults(
    alloc: Global,
    tokens: &[Token],
    calls: &[Called],
) -> Result<Vec<Found>, AllocError>
    ensures { IfOk result (λ found. found.items ≡ filter_map (spec.call_fault tokens.now) calls.now) }
{
    let mut found = Vec::new(alloc);
    let mut rest = calls;
    while let [called, more @ ..] = rest {
        if let Some(fault) = call_fault(alloc, tokens, *called) {
            found.push(fault)?;
        }
        rest = more;
    }
    Ok(found)
}
