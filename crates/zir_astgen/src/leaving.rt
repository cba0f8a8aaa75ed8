// What leaves a loop, a block or a function, and the operands that a token begins.
ghost use Rattle.std.specs.Prelude.{◌≡◌, ◌<◌, List, length, IfOk, if◌then◌else◌};
ghost use Rattle.zir_form.specs.Core as core;
ghost use Rattle.zir_form.specs.Lines.{tree_at};
ghost use Rattle.zir_astgen.specs.Control as spec;
ghost use Rattle.zir_astgen.specs.Firsts.{Adds};
ghost use Rattle.zir_astgen.specs.Leaving.{exit_at, exit_by, exit_of, leaves_by, return_at, return_of};
ghost use Rattle.zir_astgen.specs.Levels.{Level};
ghost use Rattle.zir_astgen.specs.Parts.{first_tree};
ghost use Rattle.zir_astgen.specs.Pieces.{Below};
ghost use Rattle.zir_astgen.specs.Site.{offset};
ghost use Rattle.zir_astgen.specs.Writing.{file, parts, site, trees};

use crate::exit::ExitLines;
use crate::piece::Piece;
use crate::writer::Writer;
use std::alloc::AllocError;
use zig_tree::{TokenKind, same_kind};
use zir_form::Form;
use zw_base::Seq;

impl Writer<'_> {
    /// A `break` with what it leaves, if it leaves anything.
    #[tactic(auto, using(crate::proofs::AddLemmas::add_steps), unfolding(zir_form::specs::Lines::over_cores))]
    fn broken(&mut self, place: u32, value: u32, exit: Option<ExitLines>) -> Result<u32, AllocError>
        ensures tree { IfOk result (Adds (trees self.old) (trees self.new) (spec.broken place (tree_at (trees self.old) value) (exit_by (trees self.old) exit))) }
        ensures source { self.new.source ≡ self.old.source }
    {
        match exit {
            Some(ExitLines { target, leaves }) => self.put(Form::Break {
                place,
                target,
                value,
                leaves,
            }),
            None => Ok(self.missing()),
        }
    }

    /// A `continue` with what it leaves, if it goes anywhere.
    #[tactic(auto, using(crate::proofs::AddLemmas::add_steps), unfolding(zir_form::specs::Lines::over_cores))]
    fn continued(&mut self, place: u32, exit: Option<ExitLines>) -> Result<u32, AllocError>
        ensures tree { IfOk result (Adds (trees self.old) (trees self.new) (spec.continued place (exit_by (trees self.old) exit))) }
        ensures source { self.new.source ≡ self.old.source }
    {
        match exit {
            Some(ExitLines { target, leaves }) => self.put(Form::Continue {
                place,
                target,
                leaves,
            }),
            None => Ok(self.missing()),
        }
    }

    /// A `return` with what then runs, if there is a function to return from.
    #[tactic(auto, using(crate::proofs::AddLemmas::add_steps), unfolding(zir_form::specs::Lines::over_cores))]
    fn returned(
        &mut self,
        place: u32,
        value: u32,
        leaves: Option<Seq<u32>>,
    ) -> Result<u32, AllocError>
        ensures tree { IfOk result (Adds (trees self.old) (trees self.new) (spec.returned place (tree_at (trees self.old) value) (leaves_by (trees self.old) leaves))) }
        ensures source { self.new.source ≡ self.old.source }
    {
        match leaves {
            Some(leaves) => self.put(Form::Return {
                place,
                value,
                leaves,
            }),
            None => Ok(self.missing()),
        }
    }

    /// An operand that a token begins. `exit` is where a `break` or a `continue` that is there goes, and
    /// `leaves` what runs as a `return` that is there returns.
    #[tactic(auto, using(crate::proofs::AddLemmas::add_steps), unfolding(crate::specs::Control::word_primary, zir_form::specs::Lines::over_cores))]
    fn word_primary(
        &mut self,
        token: u32,
        kind: TokenKind,
        more: &[Piece],
        exit: Option<ExitLines>,
        leaves: Option<Seq<u32>>,
    ) -> Result<u32, AllocError>
        requires below { Below (length (trees self.old)) more.now }
        ensures tree { (levels : List Level) → exit_by (trees self.old) exit ≡ exit_at (file self.old) levels kind (parts self.old more.now)
            → leaves_by (trees self.old) leaves ≡ return_at levels kind (parts self.old more.now)
            → IfOk result (Adds (trees self.old) (trees self.new) (spec.word_primary (file self.old) (site self.old) levels token kind (parts self.old more.now))) }
        ensures source { self.new.source ≡ self.old.source }
    {
        let place = self.offset(token);
        let value = self.first_line(more);
        if same_kind(kind, TokenKind::Identifier) {
            self.labelled_part(place, more)
        } else if same_kind(kind, TokenKind::KeywordBreak) {
            self.broken(place, value, exit)
        } else if same_kind(kind, TokenKind::KeywordContinue) {
            self.continued(place, exit)
        } else if same_kind(kind, TokenKind::KeywordReturn) {
            self.returned(place, value, leaves)
        } else if same_kind(kind, TokenKind::KeywordComptime) {
            self.put(Form::Comptime {
                place,
                inner: value,
            })
        } else {
            Ok(self.missing())
        }
    }

    /// A type alone, or with the values of a container.
    #[tactic(auto, using(crate::proofs::AddLemmas::add_steps), unfolding(zir_form::specs::Lines::over_cores))]
    fn typed_primary(&mut self, first: u32, ty: u32, more: &[Piece]) -> Result<u32, AllocError>
        requires below { Below (length (trees self.old)) more.now }
        requires inside { ty < length (trees self.old) }
        ensures tree { IfOk result (Adds (trees self.old) (trees self.new) (if spec.has_part (parts self.old more.now) then core.initializer (offset (file self.old) (site self.old) first) (tree_at (trees self.old) ty) (first_tree (parts self.old more.now)) else tree_at (trees self.old) ty)) }
        ensures source { self.new.source ≡ self.old.source }
    {
        if self.has_part(more) {
            let place = self.offset(first);
            let values = self.first_line(more);
            self.put(Form::Initializer { place, ty, values })
        } else {
            Ok(ty)
        }
    }

    /// An operand: the words of control, or a type with the values of a container. `exit` is where a
    /// `break` or a `continue` that is there goes, and `leaves` what runs as a `return` that is there
    /// returns.
    #[tactic(auto, using(crate::proofs::AddLemmas::add_steps), unfolding(crate::specs::Control::made_primary, crate::specs::Leaving::exit_of, crate::specs::Leaving::return_of, crate::specs::Pieces::parts_of))]
    pub fn made_primary(
        &mut self,
        row: &[Piece],
        exit: Option<ExitLines>,
        leaves: Option<Seq<u32>>,
    ) -> Result<u32, AllocError>
        requires below { Below (length (trees self.old)) row.now }
        ensures tree { (levels : List Level) → exit_by (trees self.old) exit ≡ exit_of (file self.old) levels (parts self.old row.now)
            → leaves_by (trees self.old) leaves ≡ return_of levels (parts self.old row.now)
            → IfOk result (Adds (trees self.old) (trees self.new) (spec.made_primary (file self.old) (site self.old) levels (parts self.old row.now))) }
        ensures source { self.new.source ≡ self.old.source }
    {
        match row {
            [Piece::Token { token, kind }, more @ ..] => {
                self.word_primary(*token, *kind, more, exit, leaves)
            }
            [
                Piece::Node {
                    rule: _,
                    node: _,
                    first,
                    line,
                },
                more @ ..,
            ] => self.typed_primary(*first, *line, more),
            [] => Ok(self.missing()),
        }
    }
}
