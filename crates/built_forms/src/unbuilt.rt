// The first form of a file that is not built.
ghost use Rattle.std.specs.Prelude.{◌≡◌, true, IfOk};
ghost use Rattle.zig_tree.specs.Nodes.{are_earlier};
ghost use Rattle.built_forms.specs.Built.{words_of};
ghost use Rattle.built_forms.specs.Unbuilt as spec;
ghost use Rattle.zir_scope.specs.Syntax.{inside_of, row_in, rule_at};

use crate::built::FileForms;
use crate::rows::rule_at;
use std::alloc::{AllocError, Global};
use zig_tree::{Kid, Rule, Token, Tree};
use zir_scope::Outline;

impl FileForms<'_> {
    /// The first token of a form.
    #[cycle(words)]
    fn first_at(&self, node: u32) -> Option<u32>
        ensures { result ≡ spec.first_word (inside_of self.now.outline.now node) }
    {
        self.first_word(self.outline.kids(node), node)
    }

    /// The first token of a row.
    #[cycle(words)]
    #[tactic(auto, using(zir_scope::proofs::Trees::earlier_steps), unfolding(crate::specs::Unbuilt::first_word, zir_scope::specs::Syntax::row_in, zir_scope::specs::Syntax::inside_of))]
    fn first_word(&self, row: &[Kid], before: u32) -> Option<u32>
        requires { are_earlier before row.now ≡ true }
        ensures { result ≡ spec.first_word (row_in self.now.outline.now row.now) }
    {
        let mut rest = row;
        while let [kid, more @ ..] = rest {
            let first = match *kid {
                Kid::Token(token) => Some(token),
                Kid::Node(node) => self.first_at(node),
            };
            if first.is_some() {
                return first;
            }
            rest = more;
        }
        None
    }

    /// The first token of the first form among a form and those within it that is not built.
    #[cycle(forms)]
    #[tactic(auto, unfolding(crate::specs::Unbuilt::unbuilt_at))]
    fn unbuilt_at(&self, around: Rule, node: u32) -> Result<Option<u32>, AllocError>
        ensures { IfOk result (λ t. t ≡ spec.unbuilt_at (words_of self.now) around (rule_at self.now.outline.now.nodes.now node) (inside_of self.now.outline.now node)) }
    {
        let rule = rule_at(self.outline, node);
        let row = self.outline.kids(node);
        if self.is_test(rule, row) {
            return Ok(None);
        }
        if self.is_built(around, rule, row)? {
            self.unbuilt_in(rule, row, node)
        } else {
            Ok(self.first_at(node))
        }
    }

    /// The first token of the first form in a row that is not built. It goes no deeper than the tree.
    #[cycle(forms)]
    #[tactic(auto, using(zir_scope::proofs::Trees::earlier_steps), unfolding(crate::specs::Unbuilt::unbuilt_in, crate::specs::Unbuilt::unbuilt_at, zir_scope::specs::Syntax::row_in, zir_scope::specs::Syntax::inside_of))]
    fn unbuilt_in(&self, around: Rule, row: &[Kid], before: u32) -> Result<Option<u32>, AllocError>
        requires { are_earlier before row.now ≡ true }
        ensures { IfOk result (λ t. t ≡ spec.unbuilt_in (words_of self.now) around (row_in self.now.outline.now row.now)) }
    {
        let mut rest = row;
        while let [kid, more @ ..] = rest {
            if let Kid::Node(node) = *kid {
                let first = self.unbuilt_at(around, node)?;
                if first.is_some() {
                    return Ok(first);
                }
            }
            rest = more;
        }
        Ok(None)
    }
}

/// The first token of the first form of a file that is not built, if there is one: from the root, a
/// form before those that it holds, in the order of the text. It goes through the tree once.
#[tactic(auto, unfolding(crate::specs::Unbuilt::unbuilt, zir_scope::specs::Syntax::inside_of))]
pub fn first_unbuilt(
    alloc: Global,
    text: &[u8],
    tokens: &[Token],
    tree: &Tree,
) -> Result<Option<u32>, AllocError>
    ensures { IfOk result (λ t. t ≡ spec.unbuilt text.now tokens.now tree.now.nodes tree.now.root) }
{
    let outline = Outline {
        tokens,
        nodes: tree.nodes.as_slice(),
        facts: &[],
    };
    let forms = FileForms {
        alloc,
        text,
        outline: &outline,
    };
    let first = forms.unbuilt_at(Rule::Root, tree.root)?;
    Ok(first)
}
