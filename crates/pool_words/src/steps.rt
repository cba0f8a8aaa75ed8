// The steps: one function for each kind, and the opening.
ghost use Rattle.std.specs.Prelude.{◌≡◌, ◌+◌, ◌<◌, [], ◌∷◌, ◌++◌, length, replicate, slice_index, slice_set, IfOk};
ghost use Rattle.pool_words.specs.Layout.{Row, IsLayout};
ghost use Rattle.pool_words.specs.Views.{first_view, Moves, Shown, IsPrivate, IsReady, CanFill, CanMove, IsLive, reader, with_first, with_others, informed, gathered, CanGather, Falls};

use crate::view::{
    Copies, Gathers, HandsOver, Layout, Loads, Publishes, Stores, Tells, WordSeat, Words,
};
use std::alloc::{AllocError, Global};

/// A pool of words that are all 0, with the seat that has the writer's part of every shard.
pub fn open(alloc: Global, layout: &Layout, zeros: &[u64]) -> Result<(Words, WordSeat), AllocError>
    requires laid { IsLayout layout.now }
    requires zeros { zeros.now ≡ replicate layout.now.words 0 }
    ensures seat { IfOk result (λ t. (t.1.table_id ≡ t.0.shared.table_id) × (t.1.me ≡ (first_view layout.now, []))) }
    ensures words { IfOk result (λ t. t.0.shared.table_id.words ≡ layout.now.words) }
{
    Words::of_words(alloc, zeros, layout)
}

/// A load, by any seat. It shows the seat the pool, and in which order its shards are listed.
pub fn load(words: &Words, seat: &mut WordSeat, word: usize) -> u64
    requires of { seat.old.table_id ≡ words.now.shared.table_id }
    requires live { IsLive seat.old.me.0 }
    requires inside { word < words.now.shared.table_id.words }
    ensures seat { (seat.new.table_id ≡ seat.old.table_id) × (seat.new.id ≡ seat.old.id) × (seat.new.me.1 ≡ seat.old.me.1) }
    ensures shown { Shown seat.old.me.0 seat.new.me.0 }
    ensures found { result ≡ slice_index seat.new.me.0.words word }
    ensures order { Falls seat.new.me.0.writes }
{
    words.shared.load::<Loads>(seat, word)
}

/// A store behind the rows of a shard, by its writer.
pub fn store_private(words: &Words, seat: &mut WordSeat, word: usize, value: u64)
    requires of { seat.old.table_id ≡ words.now.shared.table_id }
    requires live { IsLive seat.old.me.0 }
    requires inside { word < words.now.shared.table_id.words }
    requires behind { IsPrivate seat.old.me.0 word }
    ensures seat { (seat.new.table_id ≡ seat.old.table_id) × (seat.new.id ≡ seat.old.id) × (seat.new.me.1 ≡ seat.old.me.1) }
    ensures stored { Moves seat.old.me.0 (slice_set seat.old.me.0.words word value) seat.old.me.0.log seat.new.me.0 }
{
    words.shared.store::<Stores>(seat, word, value);
}

/// Publishes a row in a slot of its shard's live level, by the shard's writer.
pub fn publish(words: &Words, seat: &mut WordSeat, slot: usize, value: u64)
    requires of { seat.old.table_id ≡ words.now.shared.table_id }
    requires live { IsLive seat.old.me.0 }
    requires inside { slot < words.now.shared.table_id.words }
    requires ready { (r : Row) × IsReady seat.old.me.0 slot r × (value ≡ r.0 + 1) }
    ensures seat { (seat.new.table_id ≡ seat.old.table_id) × (seat.new.id ≡ seat.old.id) × (seat.new.me.1 ≡ seat.old.me.1) }
    ensures published { (r : Row) → IsReady seat.old.me.0 slot r → value ≡ r.0 + 1 → Moves seat.old.me.0 (slice_set seat.old.me.0.words slot value) (seat.old.me.0.log ++ r ∷ []) seat.new.me.0 }
{
    words.shared.store::<Publishes>(seat, slot, value);
}

/// Puts one more row into the level after the live one, by the shard's writer.
pub fn fill(words: &Words, seat: &mut WordSeat, slot: usize, value: u64)
    requires of { seat.old.table_id ≡ words.now.shared.table_id }
    requires live { IsLive seat.old.me.0 }
    requires inside { slot < words.now.shared.table_id.words }
    requires next { CanFill seat.old.me.0 slot value }
    ensures seat { (seat.new.table_id ≡ seat.old.table_id) × (seat.new.id ≡ seat.old.id) × (seat.new.me.1 ≡ seat.old.me.1) }
    ensures stored { Moves seat.old.me.0 (slice_set seat.old.me.0.words slot value) seat.old.me.0.log seat.new.me.0 }
{
    words.shared.store::<Stores>(seat, slot, value);
}

/// Moves a head to the next level, by the shard's writer, once every row stands there.
pub fn move_head(words: &Words, seat: &mut WordSeat, head: usize, level: u64)
    requires of { seat.old.table_id ≡ words.now.shared.table_id }
    requires live { IsLive seat.old.me.0 }
    requires inside { head < words.now.shared.table_id.words }
    requires whole { CanMove seat.old.me.0 head level }
    ensures seat { (seat.new.table_id ≡ seat.old.table_id) × (seat.new.id ≡ seat.old.id) × (seat.new.me.1 ≡ seat.old.me.1) }
    ensures stored { Moves seat.old.me.0 (slice_set seat.old.me.0.words head level) seat.old.me.0.log seat.new.me.0 }
{
    words.shared.store::<Stores>(seat, head, level);
}

/// Splits a seat: the new one knows as much, and is no shard's writer.
pub fn split(words: &Words, seat: &mut WordSeat) -> WordSeat
    requires of { seat.old.table_id ≡ words.now.shared.table_id }
    requires live { IsLive seat.old.me.0 }
    requires some { 0 < words.now.shared.table_id.words }
    ensures seat { (seat.new.table_id ≡ seat.old.table_id) × (seat.new.id ≡ seat.old.id) × (seat.new.me ≡ seat.old.me) }
    ensures given { (result.table_id ≡ seat.old.table_id) × (result.me ≡ (reader seat.old.me.0, [])) }
{
    words.shared.split_seat::<Copies>(seat)
}

/// Splits a seat: the new one knows as much, and takes over the first writer's part.
pub fn hand_over(words: &Words, seat: &mut WordSeat) -> WordSeat
    requires of { seat.old.table_id ≡ words.now.shared.table_id }
    requires live { IsLive seat.old.me.0 }
    requires some { 0 < words.now.shared.table_id.words }
    ensures seat { (seat.new.table_id ≡ seat.old.table_id) × (seat.new.id ≡ seat.old.id) × (seat.new.me ≡ (with_others seat.old.me.0, seat.old.me.1)) }
    ensures given { (result.table_id ≡ seat.old.table_id) × (result.me ≡ (with_first seat.old.me.0, [])) }
{
    words.shared.split_seat::<HandsOver>(seat)
}

/// Joins a seat that is no shard's writer. The first seat is told of what the second one knew, and
/// knows it from its next step on.
pub fn join(words: &Words, seat: &mut WordSeat, other: WordSeat)
    requires of { seat.old.table_id ≡ words.now.shared.table_id }
    requires live { IsLive seat.old.me.0 }
    requires other_of { other.table_id ≡ words.now.shared.table_id }
    requires other_live { IsLive other.me.0 }
    requires reads { (other.me.0.writes ≡ []) × (other.me.1 ≡ []) }
    requires some { 0 < words.now.shared.table_id.words }
    ensures { (seat.new.table_id ≡ seat.old.table_id) × (seat.new.id ≡ seat.old.id) × (seat.new.me ≡ (informed seat.old.me.0 other.me.0, seat.old.me.1)) }
{
    words.shared.join_seat::<Tells>(seat, other);
}

/// Joins a seat that is one shard's writer. The first seat takes over its part, and with it the
/// shard as it is.
pub fn gather(words: &Words, seat: &mut WordSeat, other: WordSeat)
    requires of { seat.old.table_id ≡ words.now.shared.table_id }
    requires live { IsLive seat.old.me.0 }
    requires other_of { other.table_id ≡ words.now.shared.table_id }
    requires other_live { IsLive other.me.0 }
    requires writes { CanGather seat.old.me.0 other.me.0 × (other.me.1 ≡ []) }
    requires some { 0 < words.now.shared.table_id.words }
    ensures { (seat.new.table_id ≡ seat.old.table_id) × (seat.new.id ≡ seat.old.id) × (seat.new.me ≡ (gathered seat.old.me.0 other.me.0, seat.old.me.1)) }
{
    words.shared.join_seat::<Gathers>(seat, other);
}
