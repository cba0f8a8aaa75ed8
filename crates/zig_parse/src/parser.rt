// From tokens to the tree or the refused token.
ghost use Rattle.std.specs.Prelude.{◌≡◌, ◌+◌, IfErr, IfOk, length};
ghost use Rattle.zig_parse.specs.Growth.{parse_of};
ghost use Rattle.zig_parse.specs.Surveys.{Gives};
ghost use Rattle.zig_parse.specs.Trees.{EarlierShallow, HoldsAll, IsChosen, IsRefusedFor, IsSentence, NamesToken, NoneShallow, kinds_of};

use crate::fault::SyntaxFault;
use crate::grow::grow;
use crate::state::survey;
use std::alloc::Global;
use zig_tree::{Token, Tree};

/// The tree of a file's tokens (Zig Language Reference 0.14, "Grammar"), or why there is none: the
/// answer is that of the function `parse_of` on lists, unless memory runs out. The list is to end with
/// the token of the file's end and to have it nowhere else; another list has no tree.
#[tactic(auto, unfolding(crate::specs::Growth::parse_of))]
pub fn parse(alloc: Global, tokens: &[Token]) -> Result<Tree, SyntaxFault>
    ensures nodes { Gives (λ t. t.nodes) result (parse_of tokens.now) }
    ensures root { IfOk result (λ t. t.root + 1 ≡ length t.nodes) }
    // The root holds all tokens, each once and in order, by rules that derive them, no deeper than 200.
    ensures tree { IfOk result (λ t. HoldsAll tokens.now t.nodes t.root) }
    // So the tokens are a sentence: no other list has a tree.
    ensures sentence { IfOk result (λ _. IsSentence (kinds_of tokens.now)) }
    // The tree is the one that the tie-breaks choose.
    ensures chosen { IfOk result (λ t. IsChosen tokens.now t.nodes t.root) }
    // A refusal names a token and its kind.
    ensures refused { IfErr result (NamesToken tokens.now) }
    // No sentence whose tree is within the depth is refused; and none, however deep, begins with an unexpected token.
    ensures reason { IfErr result (IsRefusedFor tokens.now) }
    // With a refused token no sentence begins that has each token up to it directly in a node within the depth.
    ensures shallow { IfErr result (NoneShallow tokens.now) }
    // With those before it one does, where after them, or after them and more, the threads of the first pass are
    // even; where the way of it that leads is too deep only where all are; and where some tokens end one way alone.
    ensures earlier { IfErr result (EarlierShallow tokens.now) }
{
    let Ok(count) = u32::try_from(tokens.len()) else {
        return Err(SyntaxFault::OutOfMemory);
    };
    let chosen = survey(alloc, tokens, count)?;
    grow(alloc, tokens, count, chosen.as_slice())
}
