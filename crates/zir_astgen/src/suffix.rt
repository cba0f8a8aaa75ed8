// What is asked of an atom, from the left: members, calls, indices and slices.
ghost use Rattle.std.specs.Prelude.{◌≡◌, ◌<◌, length, slice_index_or, IfOk};
ghost use Rattle.zir_form.specs.Lines.{over_cores, tree_at};
ghost use Rattle.zir_astgen.specs.Asking.{Asks, asked_of, with_item};
ghost use Rattle.zir_astgen.specs.Firsts.{Adds, AreBelow};
ghost use Rattle.zir_astgen.specs.Names as spec;
ghost use Rattle.zir_astgen.specs.Pieces.{Below};
ghost use Rattle.zir_astgen.specs.Writing.{file, parts, site, trees};

use crate::asking::Asking;
use crate::piece::Piece;
use crate::writer::{ABSENT, MISSING, Writer};
use std::alloc::AllocError;
use zig_tree::{TokenKind, same_kind};
use zir_form::Form;
use zw_base::Seq;

/// The line at a place of a list; one that isn't there is left out.
fn item_at(items: &[u32], at: usize) -> u32
    ensures { result ≡ slice_index_or items.now at 1 }
{
    if at < items.len() { items[at] } else { ABSENT }
}

impl Writer<'_> {
    /// Of a value nothing more is asked yet.
    fn asked_now(&self, object: u32) -> Asking
        requires { object < length (trees self.now) }
        ensures { Asks (trees self.now) (trees self.now) (spec.now (tree_at (trees self.now) object)) result }
    {
        Asking {
            object,
            items: Vec::new(self.alloc),
            ranged: false,
        }
    }

    /// Of a value that is written now nothing more is asked yet.
    fn asked_of_form(&mut self, form: Form) -> Result<Asking, AllocError>
        ensures asks { IfOk result (Asks (trees self.old) (trees self.new) (spec.now (over_cores (tree_at (trees self.old)) form))) }
        ensures source { self.new.source ≡ self.old.source }
    {
        let object = self.put(form)?;
        Ok(self.asked_now(object))
    }

    /// `a[i]` or `a[i..j]`.
    #[tactic(auto, unfolding(zir_form::specs::Lines::over_cores))]
    fn bracketed(&mut self, place: u32, asking: Asking) -> Result<Asking, AllocError>
        ensures asks { IfOk result (Asks (trees self.old) (trees self.new) (spec.now (spec.bracketed place (asked_of (trees self.old) asking)))) }
        ensures source { self.new.source ≡ self.old.source }
    {
        let object = asking.object;
        let first = item_at(asking.items.as_slice(), 0);
        if asking.ranged {
            let end = item_at(asking.items.as_slice(), 1);
            self.asked_of_form(Form::Slice {
                place,
                object,
                start: first,
                end,
            })
        } else {
            self.asked_of_form(Form::Index {
                place,
                object,
                index: first,
            })
        }
    }

    /// What a token asks.
    #[tactic(auto, unfolding(crate::specs::Names::asked_by, zir_form::specs::Lines::over_cores))]
    fn asked_by(
        &mut self,
        place: u32,
        token: u32,
        kind: TokenKind,
        asking: Asking,
    ) -> Result<Asking, AllocError>
        requires object { asking.object < length (trees self.old) }
        requires items { AreBelow (length (trees self.old)) asking.items.items }
        ensures asks { IfOk result (Asks (trees self.old) (trees self.new) (spec.asked_by (file self.old) (site self.old) place token kind (asked_of (trees self.old) asking))) }
        ensures source { self.new.source ≡ self.old.source }
    {
        let object = asking.object;
        if same_kind(kind, TokenKind::Identifier) {
            let name = self.bytes_of_name(token)?;
            let name_place = self.offset(token);
            self.asked_of_form(Form::Member {
                place,
                name_place,
                object,
                name,
            })
        } else if same_kind(kind, TokenKind::PeriodAsterisk) {
            self.asked_of_form(Form::Dereference { place, object })
        } else if same_kind(kind, TokenKind::PeriodQuestionMark) {
            self.asked_of_form(Form::Unwrap { place, object })
        } else if same_kind(kind, TokenKind::Ellipsis2) {
            Ok(Asking {
                object,
                items: asking.items,
                ranged: true,
            })
        } else if same_kind(kind, TokenKind::RightBracket) {
            self.bracketed(place, asking)
        } else if same_kind(kind, TokenKind::RightParen) {
            self.asked_of_form(Form::Call {
                place,
                callee: object,
                arguments: Seq::of(asking.items),
            })
        } else {
            Ok(asking)
        }
    }

    /// One expression more in brackets or parentheses.
    fn one_more(&self, asking: Asking, line: u32) -> Result<Asking, AllocError>
        requires inside { line < length (trees self.now) }
        requires object { asking.object < length (trees self.now) }
        requires items { AreBelow (length (trees self.now)) asking.items.items }
        ensures { IfOk result (Asks (trees self.now) (trees self.now) (with_item (asked_of (trees self.now) asking) (tree_at (trees self.now) line))) }
    {
        let mut items = asking.items;
        items.push(line)?;
        Ok(Asking {
            object: asking.object,
            items,
            ranged: asking.ranged,
        })
    }

    /// A value with what is asked of it, from the left.
    #[tactic(auto, unfolding(crate::specs::Names::asked, crate::specs::Pieces::parts_of))]
    fn asked(&mut self, place: u32, line: u32, row: &[Piece]) -> Result<u32, AllocError>
        requires below { Below (length (trees self.old)) row.now }
        requires inside { line < length (trees self.old) }
        ensures tree { IfOk result (Adds (trees self.old) (trees self.new) (spec.asked (file self.old) (site self.old) place (spec.now (tree_at (trees self.old) line)) (parts self.old row.now))) }
        ensures source { self.new.source ≡ self.old.source }
    {
        let mut asking = self.asked_now(line);
        let mut rest = row;
        while let [piece, more @ ..] = rest {
            match *piece {
                Piece::Token { token, kind } => {
                    asking = self.asked_by(place, token, kind, asking)?;
                }
                Piece::Node {
                    rule: _,
                    node: _,
                    first: _,
                    line: item,
                } => {
                    asking = self.one_more(asking, item)?;
                }
            }
            rest = more;
        }
        Ok(asking.object)
    }

    /// An atom with what is asked of it.
    #[tactic(auto, unfolding(crate::specs::Names::made_suffix, crate::specs::Pieces::parts_of))]
    pub fn made_suffix(&mut self, row: &[Piece]) -> Result<u32, AllocError>
        requires below { Below (length (trees self.old)) row.now }
        ensures tree { IfOk result (Adds (trees self.old) (trees self.new) (spec.made_suffix (file self.old) (site self.old) (parts self.old row.now))) }
        ensures source { self.new.source ≡ self.old.source }
    {
        match row {
            [
                Piece::Node {
                    rule: _,
                    node: _,
                    first,
                    line,
                },
                more @ ..,
            ] => {
                let place = self.offset(*first);
                self.asked(place, *line, more)
            }
            [Piece::Token { token: _, kind: _ }, ..] => Ok(MISSING),
            [] => Ok(MISSING),
        }
    }
}
