// The front of a file: what is made of its text before any unit is analysed.
ghost use Rattle.std.specs.Prelude.{◌≡◌, ◌+◌, ◌≤◌, ◌<◌, ◌^◌, ◌++◌, ℕ, List, Ok, Err, Some, length, IfOk, IfErr};
ghost use Rattle.zig_token.specs.Scan.{tokens_of};
ghost use Rattle.zig_parse.specs.Growth.{parse_of};
ghost use Rattle.zir_form.specs.Front.{front_in};
ghost use Rattle.built_forms.specs.Unbuilt.{unbuilt};
ghost use Rattle.watch_core.specs.Front.{faults_or, form_faults, found_at, front_of, front_of_nodes, start_of, treeless};
ghost use Rattle.watch_core.specs.Stages.{StopsAt};

use built_forms::first_unbuilt;
use std::alloc::{AllocError, Global};
use zig_parse::{SyntaxFault, parse};
use zig_token::{LexFault, tokens};
use zig_tree::{Token, Tree};
use zir_astgen::{AstGenOut, astgen};
use zir_form::Front;
use zir_scope::{Scopes, resolve};
use zw_base::limits::TOTAL_BYTES;
use zw_base::{Bytes, DiagCode, Found, Seq, Span};

/// Why the stages of a file end early: its text is refused at a byte, or there was no memory.
#[derive(Clone, Copy, Debug, PartialEq, Eq)]
enum Stop {
    Refused { code: DiagCode, at: u32 },
    OutOfMemory,
}

impl From<AllocError> for Stop {
    ghost use Rattle.std.specs.Prelude.{◌≡◌};
    ghost use Rattle.watch_core.specs.declared.front.Stop.TheVariants.{OutOfMemory};

    ghost from_gives = { λ _ stop. stop ≡ OutOfMemory };

    fn from(_: AllocError) -> Stop {
        Stop::OutOfMemory
    }
}

/// The front of a file of the given text. Near-linear in the text.
pub fn front_of(alloc: Global, text: &[u8]) -> Result<Front, AllocError>
    requires { length text.now ≤ TOTAL_BYTES }
    ensures { IfOk result (λ front. front_in front ≡ front_of text.now) }
{
    match stages(alloc, text) {
        Ok(front) => Ok(front),
        Err(Stop::Refused { code, at }) => treeless(alloc, code, at),
        Err(Stop::OutOfMemory) => Err(AllocError),
    }
}

/// The stages of a file, each over what those before it gave.
fn stages(alloc: Global, text: &[u8]) -> Result<Front, Stop>
    requires { length text.now ≤ TOTAL_BYTES }
    ensures ok { IfOk result (λ front. front_in front ≡ front_of text.now) }
    ensures stop { IfErr result (StopsAt (front_of text.now)) }
{
    let list = tokens_in(alloc, text)?;
    let tokens = list.as_slice();
    let tree = tree_of(alloc, tokens)?;
    let scopes = resolve(alloc, text, tokens, &tree)?;
    let core = astgen(alloc, text, tokens, &tree, &scopes)?;
    let front = with_names(scopes, core)?;
    let front = with_forms(alloc, text, tokens, &tree, front)?;
    Ok(front)
}

/// The tokens of a text.
#[tactic(auto, unfolding(crate::specs::Front::front_of))]
fn tokens_in(alloc: Global, text: &[u8]) -> Result<Vec<Token>, Stop>
    requires { length text.now ≤ TOTAL_BYTES }
    ensures ok { IfOk result (λ list. tokens_of text.now ≡ Ok list.items) }
    ensures few { IfOk result (λ list. length list.items < 2 ^ 32) }
    ensures stop { IfErr result (StopsAt (front_of text.now)) }
{
    match tokens(alloc, text) {
        Ok(tokens) => Ok(tokens),
        Err(LexFault::BadByte { at }) => refused(DiagCode::BadByte, at),
        Err(LexFault::BadEscape { at }) => refused(DiagCode::BadEscape, at),
        Err(LexFault::OpenString { at }) => refused(DiagCode::OpenString, at),
        Err(LexFault::BadNumber { at }) => refused(DiagCode::BadNumber, at),
        Err(LexFault::OutOfMemory) => Err(Stop::OutOfMemory),
    }
}

/// The tree of tokens.
fn tree_of(alloc: Global, tokens: &[Token]) -> Result<Tree, Stop>
    ensures ok { IfOk result (λ tree. parse_of tokens.now ≡ Ok tree.nodes) }
    ensures root { IfOk result (λ tree. tree.root + 1 ≡ length tree.nodes) }
    ensures stop { IfErr result (λ stop. (text : List ℕ) → StopsAt (front_of_nodes text tokens.now (parse_of tokens.now)) stop) }
{
    match parse(alloc, tokens) {
        Ok(tree) => Ok(tree),
        Err(SyntaxFault::Unexpected { at, .. }) => {
            refused(DiagCode::UnexpectedToken, start_of(tokens, at))
        }
        Err(SyntaxFault::TooDeep { at }) => refused(DiagCode::TooDeep, start_of(tokens, at)),
        Err(SyntaxFault::OutOfMemory) => Err(Stop::OutOfMemory),
    }
}

/// A refusal at a byte.
fn refused<T>(code: DiagCode, at: u32) -> Result<T, Stop>
    ensures { result ≡ Err (Stop.Refused code at) }
{
    Err(Stop::Refused { code, at })
}

/// Where the token with this number begins.
fn start_of(tokens: &[Token], n: u32) -> u32
    ensures { result ≡ start_of tokens.now n }
{
    match tokens.get(n as usize) {
        Some(token) => token.span.start,
        None => 0,
    }
}

/// The front of a file with a tree: the diagnostics of its names, then those of its builtins.
fn with_names(scopes: Scopes, core: AstGenOut) -> Result<Front, AllocError>
    ensures found { IfOk result (λ front. front.found ≡ scopes.found ++ core.found) }
    ensures zir { IfOk result (λ front. front.zir ≡ Some core.zir) }
{
    let Scopes {
        events: _,
        captures: _,
        found,
    } = scopes;
    let AstGenOut { zir, found: calls } = core;
    let mut found = found.into_vec();
    let mut calls = calls.into_vec();
    found.append(&mut calls)?;
    Ok(Front {
        found: Seq::of(found),
        zir: Some(zir),
    })
}

/// The diagnostic of the first form that is not built, if there is one.
fn form_faults(
    alloc: Global,
    text: &[u8],
    tokens: &[Token],
    tree: &Tree,
) -> Result<Vec<Found>, AllocError>
    ensures { IfOk result (λ v. v.items ≡ form_faults tokens.now (unbuilt text.now tokens.now tree.now.nodes tree.now.root)) }
{
    match first_unbuilt(alloc, text, tokens, tree)? {
        Some(first) => {
            let found = found_at(alloc, DiagCode::NotBuilt, start_of(tokens, first));
            Ok(vec![in alloc; found]?)
        }
        None => Ok(Vec::new(alloc)),
    }
}

/// The front of a file whose names and builtins may be at fault: where nothing is wrong with them, it
/// has the diagnostic of its first form that is not built.
fn with_forms(
    alloc: Global,
    text: &[u8],
    tokens: &[Token],
    tree: &Tree,
    front: Front,
) -> Result<Front, AllocError>
    ensures found { IfOk result (λ f. f.found ≡ faults_or front.found (form_faults tokens.now (unbuilt text.now tokens.now tree.now.nodes tree.now.root))) }
    ensures zir { IfOk result (λ f. f.zir ≡ front.zir) }
{
    if !front.found.is_empty() {
        return Ok(front);
    }
    let Front { found: _, zir } = front;
    let found = form_faults(alloc, text, tokens, tree)?;
    Ok(Front {
        found: Seq::of(found),
        zir,
    })
}

/// The front of a file without a tree.
#[tactic(auto, unfolding(zir_form::specs::Front::front_in))]
fn treeless(alloc: Global, code: DiagCode, at: u32) -> Result<Front, AllocError>
    ensures { IfOk result (λ front. front_in front ≡ treeless (Some (found_at code at))) }
{
    let found = vec![in alloc; found_at(alloc, code, at)]?;
    Ok(Front {
        found: Seq::of(found),
        zir: None,
    })
}

/// A diagnostic at a byte.
pub fn found_at(alloc: Global, code: DiagCode, at: u32) -> Found
    ensures { result ≡ found_at code at }
{
    Found {
        code,
        span: Span { start: at, end: at },
        text: Bytes::of(Vec::new(alloc)),
    }
}
