// A seat at a shared pool, and what seats tell one another.
ghost use Rattle.std.specs.Prelude.{◌≡◌, [], MatchBool, IsSome};
ghost use Rattle.type_form.specs.Known.{words_at};
ghost use Rattle.pool_words.specs.Rule.{Extends};
ghost use Rattle.pool_words.specs.Views.{Falls, reader};
ghost use Rattle.pool_shard.specs.Looks.{IsSeat, Keeps};
ghost use Rattle.pool_shard.specs.Pairs.{known};

use pool_words::{Layout, WordSeat, Words, join, load, split};
use std::marker::Model;
use type_form::Index;

/// A seat at a shared pool. Contracts see it as the id of its table and what it knows.
#[derive(Drop)]
pub struct RawSeat {
    pub(crate) seat: WordSeat,
}

impl Model for RawSeat {
    ghost use Rattle.pool_shard.specs.Pairs.{Rows};
    ghost use Rattle.pool_shard.specs.Looks.{IsReader};

    ghost Value = { Rows };

    ghost view = { λ s. record { id = s.seat.table_id; view = s.seat.me.0 } };

    ghost invariant = { λ s. IsReader s.seat };
}

/// A seat that knows as much, and is no shard's writer.
pub(crate) fn copy(words: &Words, layout: &Layout, seat: &mut WordSeat) -> WordSeat
    requires seat { IsSeat layout.now words.now.shared.table_id seat.old }
    ensures seat { IsSeat layout.now words.now.shared.table_id seat.new }
    ensures same { seat.new.me ≡ seat.old.me }
    ensures given { IsSeat layout.now words.now.shared.table_id result }
    ensures reads { result.me ≡ (reader seat.old.me.0, []) }
{
    let _layout = *layout;
    split(words, seat)
}

/// Tells a seat what another one knows, which is no shard's writer.
pub(crate) fn tell(words: &Words, layout: &Layout, seat: &mut WordSeat, other: WordSeat)
    requires seat { IsSeat layout.now words.now.shared.table_id seat.old }
    requires other { IsSeat layout.now words.now.shared.table_id other }
    requires reads { (other.me.0.writes ≡ []) × (other.me.1 ≡ []) }
    ensures seat { IsSeat layout.now words.now.shared.table_id seat.new }
    ensures keeps { Keeps seat.old.me.0 seat.new.me.0 }
    ensures slots { seat.new.me.1 ≡ seat.old.me.1 }
    ensures told { Extends other.me.0.log seat.new.me.0.log }
    ensures order { Falls seat.new.me.0.writes }
{
    let _layout = *layout;
    join(words, seat, other);
    load(words, seat, 0);
}

impl RawSeat {
    /// Whether two known indices are one, which is whether their keys are.
    pub fn same_key(&self, i: Index, j: Index) -> bool
        requires first { IsSome (words_at (known self.now) i) }
        requires second { IsSome (words_at (known self.now) j) }
        ensures index { MatchBool result (i ≡ j) (i ≡ j → ⊥) }
        ensures key { MatchBool result (words_at (known self.now) i ≡ words_at (known self.now) j) (words_at (known self.now) i ≡ words_at (known self.now) j → ⊥) }
    {
        let _seat = &self.seat;
        i.0 == j.0
    }
}
