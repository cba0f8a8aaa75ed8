// How a seat takes over the writers' parts.
ghost use Rattle.std.specs.Prelude.{◌≡◌, ◌+◌, length};
ghost use Rattle.pool_words.specs.Rule.{Extends};
ghost use Rattle.pool_words.specs.Layout.{rows_of};
ghost use Rattle.pool_shard.specs.Looks.{IsSeat, Keeps, IsWriter, IsGathered};

use crate::name::PoolName;
use crate::seat::{copy, tell};
use crate::writer::Writer;
use pool_words::{Layout, WordSeat, Words, gather, load};

/// Tells two seats of one another until they know the same rows of the shard of the second.
fn settle(
    words: &Words,
    layout: &Layout,
    seat: &mut WordSeat,
    other: &mut WordSeat,
    shard: usize,
    count: usize,
    sum: usize,
)
    requires seat { IsSeat layout.now words.now.shared.table_id seat.old }
    requires other { IsWriter layout.now words.now.shared.table_id other.old shard count sum }
    ensures seat { IsSeat layout.now words.now.shared.table_id seat.new }
    ensures keeps { Keeps seat.old.me.0 seat.new.me.0 }
    ensures slots { seat.new.me.1 ≡ seat.old.me.1 }
    ensures other { IsWriter layout.now words.now.shared.table_id other.new shard count sum }
    ensures rows { rows_of layout.now shard seat.new.me.0.log ≡ rows_of layout.now shard other.new.me.0.log }
{
    let _ = (shard, count, sum);
    let news = copy(words, layout, other);
    tell(words, layout, seat, news);
    let news = copy(words, layout, seat);
    tell(words, layout, other, news);
}

/// Takes over the part of a shard's writer, with its counts.
pub(crate) fn take_over<N: PoolName>(
    words: &Words,
    layout: &Layout,
    seat: &mut WordSeat,
    writer: Writer<N>,
    counts: &mut Vec<usize>,
    sums: &mut Vec<usize>,
)
    requires named { (layout.now ≡ N.pool.layout) × (words.now.shared.table_id ≡ N.pool.table) }
    requires gathered { IsGathered layout.now words.now.shared.table_id seat.old counts.old.items sums.old.items }
    ensures gathered { IsGathered layout.now words.now.shared.table_id seat.new counts.new.items sums.new.items }
    ensures more { length seat.new.me.0.writes ≡ length seat.old.me.0.writes + 1 }
    ensures log { Extends seat.old.me.0.log seat.new.me.0.log }
{
    let Writer {
        seat: mut other,
        shard,
        count,
        sum,
        name: _,
    } = writer;
    settle(words, layout, seat, &mut other, shard, count, sum);
    gather(words, seat, other);
    load(words, seat, 0);
    counts[shard] = count;
    sums[shard] = sum;
}
