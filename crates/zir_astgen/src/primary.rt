// Operands, the operators before them, and blocks, by the frames around them.
ghost use Rattle.std.specs.Prelude.{◌≡◌, ◌<◌, length, IfOk};
ghost use Rattle.zir_form.specs.Lines.{tree_at};
ghost use Rattle.zir_astgen.specs.Chains.{made_prefix};
ghost use Rattle.zir_astgen.specs.Control.{label_in, made_primary};
ghost use Rattle.zir_astgen.specs.Firsts.{Adds};
ghost use Rattle.zir_astgen.specs.Frames.{levels_of, FramesBelow, LeavesBelow};
ghost use Rattle.zir_astgen.specs.Leaving as spec;
ghost use Rattle.zir_astgen.specs.Leaving.{exit_by, leaves_by};
ghost use Rattle.zir_astgen.specs.Pieces.{Below};
ghost use Rattle.zir_astgen.specs.Statements.{defers_at, made_block};
ghost use Rattle.zir_astgen.specs.Writing.{file, parts, site, trees};

use crate::exit::ExitLines;
use crate::levels::Frames;
use crate::piece::Piece;
use crate::writer::{ABSENT, Writer};
use std::alloc::AllocError;
use zig_tree::{TokenKind, same_kind};
use zw_base::Seq;

impl Writer<'_> {
    /// The label behind a `break` or a `continue`.
    #[tactic(auto, unfolding(crate::specs::Control::label_in))]
    fn label_in(&self, row: &[Piece]) -> Option<u32>
        ensures { result ≡ label_in (file self.now) (parts self.now row.now) }
    {
        if !self.has_token(TokenKind::Colon, row) {
            return None;
        }
        match self.token_in(TokenKind::Identifier, row) {
            Some(token) => Some(self.source.outline.name(token)),
            None => None,
        }
    }

    /// Where the `break` or `continue` of this kind before a row goes, if one is there.
    fn exit_at(
        &self,
        frames: &Frames<'_>,
        kind: TokenKind,
        more: &[Piece],
    ) -> Result<Option<ExitLines>, AllocError>
        requires { FramesBelow (length (trees self.now)) frames.now }
        ensures { IfOk result (λ o. exit_by (trees self.now) o ≡ spec.exit_at (file self.now) (levels_of (trees self.now) frames.now) kind (parts self.now more.now)) }
    {
        if same_kind(kind, TokenKind::KeywordBreak) {
            self.exit_from(false, self.label_in(more), frames)
        } else if same_kind(kind, TokenKind::KeywordContinue) {
            self.exit_from(true, self.label_in(more), frames)
        } else {
            Ok(None)
        }
    }

    /// Where the `break` or `continue` that leads a row goes, if one does.
    #[tactic(auto, unfolding(crate::specs::Leaving::exit_of, crate::specs::Pieces::parts_of))]
    fn exit_of(&self, frames: &Frames<'_>, row: &[Piece]) -> Result<Option<ExitLines>, AllocError>
        requires { FramesBelow (length (trees self.now)) frames.now }
        ensures { IfOk result (λ o. exit_by (trees self.now) o ≡ spec.exit_of (file self.now) (levels_of (trees self.now) frames.now) (parts self.now row.now)) }
    {
        match row {
            [Piece::Token { token: _, kind }, more @ ..] => self.exit_at(frames, *kind, more),
            [
                Piece::Node {
                    rule: _,
                    node: _,
                    first: _,
                    line: _,
                },
                ..
            ] => Ok(None),
            [] => Ok(None),
        }
    }

    /// What runs as the `return` of this kind before a row returns, if one is there.
    fn return_at(
        &self,
        frames: &Frames<'_>,
        kind: TokenKind,
        more: &[Piece],
    ) -> Result<Option<Seq<u32>>, AllocError>
        requires { FramesBelow (length (trees self.now)) frames.now }
        ensures { IfOk result (λ o. leaves_by (trees self.now) o ≡ spec.return_at (levels_of (trees self.now) frames.now) kind (parts self.now more.now)) }
    {
        if same_kind(kind, TokenKind::KeywordReturn) {
            self.return_from(self.has_part(more), frames)
        } else {
            Ok(None)
        }
    }

    /// What runs as the `return` that leads a row returns, if one does.
    #[tactic(auto, unfolding(crate::specs::Leaving::return_of, crate::specs::Pieces::parts_of))]
    fn return_of(&self, frames: &Frames<'_>, row: &[Piece]) -> Result<Option<Seq<u32>>, AllocError>
        requires { FramesBelow (length (trees self.now)) frames.now }
        ensures { IfOk result (λ o. leaves_by (trees self.now) o ≡ spec.return_of (levels_of (trees self.now) frames.now) (parts self.now row.now)) }
    {
        match row {
            [Piece::Token { token: _, kind }, more @ ..] => self.return_at(frames, *kind, more),
            [
                Piece::Node {
                    rule: _,
                    node: _,
                    first: _,
                    line: _,
                },
                ..
            ] => Ok(None),
            [] => Ok(None),
        }
    }

    /// The line of an operand.
    pub fn primary_line(&mut self, frames: &Frames<'_>, row: &[Piece]) -> Result<u32, AllocError>
        requires below { Below (length (trees self.old)) row.now }
        requires around { FramesBelow (length (trees self.old)) frames.now }
        ensures tree { IfOk result (Adds (trees self.old) (trees self.new) (made_primary (file self.old) (site self.old) (levels_of (trees self.old) frames.now) (parts self.old row.now))) }
        ensures source { self.new.source ≡ self.old.source }
    {
        let exit = self.exit_of(frames, row)?;
        let leaves = self.return_of(frames, row)?;
        self.made_primary(row, exit, leaves)
    }

    /// The lines of what runs where a `try` among the operators of a row returns; without one none are
    /// asked for.
    #[tactic(auto, using(crate::proofs::LeavingLemmas::leaving_steps))]
    fn tries(&self, frames: &Frames<'_>, row: &[Piece]) -> Result<Option<Seq<u32>>, AllocError>
        requires { FramesBelow (length (trees self.now)) frames.now }
        ensures below { IfOk result (LeavesBelow (length (trees self.now))) }
        ensures operand { IfOk result (λ o. spec.OperandBy (file self.now) (site self.now) (levels_of (trees self.now) frames.now) (parts self.now row.now) (leaves_by (trees self.now) o)) }
    {
        if self.has_token(TokenKind::KeywordTry, row) {
            let leaves = self.return_from(true, frames)?;
            Ok(leaves)
        } else {
            Ok(None)
        }
    }

    /// The line of an operand with the operators before it.
    #[tactic(auto, unfolding(crate::specs::Chains::made_prefix))]
    pub fn prefix_line(&mut self, frames: &Frames<'_>, row: &[Piece]) -> Result<u32, AllocError>
        requires below { Below (length (trees self.old)) row.now }
        requires around { FramesBelow (length (trees self.old)) frames.now }
        ensures tree { IfOk result (Adds (trees self.old) (trees self.new) (made_prefix (file self.old) (site self.old) (levels_of (trees self.old) frames.now) (parts self.old row.now))) }
        ensures source { self.new.source ≡ self.old.source }
    {
        match self.tries(frames, row)? {
            Some(leaves) => self.made_prefix(Some(leaves.as_slice()), row),
            None => self.made_prefix(None, row),
        }
    }

    /// The line of a block, by the frames around its end.
    pub fn block_line(&mut self, behind: &Frames<'_>, row: &[Piece]) -> Result<u32, AllocError>
        requires below { Below (length (trees self.old)) row.now }
        ensures tree { IfOk result (Adds (trees self.old) (trees self.new) (made_block (file self.old) (site self.old) (levels_of (trees self.old) behind.now) (parts self.old row.now))) }
        ensures source { self.new.source ≡ self.old.source }
    {
        let leaves = self.defers_at(behind);
        self.made_block(leaves, row)
    }

    /// The line of what is put off for each exit, at the innermost level.
    #[tactic(auto, using(crate::proofs::AddLemmas::absent_tree))]
    fn defers_at(&self, frames: &Frames<'_>) -> u32
        ensures { tree_at (trees self.now) result ≡ defers_at (levels_of (trees self.now) frames.now) }
    {
        match frames {
            Frames::Within(frame, _) => frame.defers,
            Frames::Outside => self.absent(),
        }
    }
}
