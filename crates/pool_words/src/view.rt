// A pool's layout, what a seat knows of the pool, and the rule.
use atomic_table::{Join, Play, Seat, Split, Table, TableRule};
use std::alloc::Global;
use std::collections::LinkedList;

/// How the words of a pool are laid out.
#[derive(Clone, Copy, Debug)]
pub struct Layout {
    /// The number of shards.
    pub shards: usize,
    /// The words of a shard.
    pub size: usize,
    /// The last level of a shard.
    pub top: usize,
    /// The words of all shards, and those that are left over.
    pub words: usize,
}

/// What a seat knows. No value of it is made.
pub struct View {
    pub layout: Layout,
    /// The words as they were at the seat's last step.
    pub words: LinkedList<u64>,
    /// The rows that were published by then, each with its place and its key.
    pub log: LinkedList<(u64, LinkedList<u64>)>,
    /// The shards whose writer's part the seat has.
    pub writes: LinkedList<u64>,
    /// The rows of which another seat told it since its last step.
    pub told: LinkedList<(u64, LinkedList<u64>)>,
}

/// The rule of the pool's words.
pub struct PoolRule;

impl TableRule<(), View, Layout> for PoolRule {
    ghost use Rattle.pool_words.specs.Views.{Holds, first_view};

    ghost holds = { λ z. Holds z };

    ghost first = { first_view };
}

pub(crate) struct Loads;

impl Play<(), View> for Loads {
    ghost use Rattle.pool_words.specs.Views.{loaded};

    ghost then = { loaded };
}

pub(crate) struct Stores;

impl Play<(), View> for Stores {
    ghost use Rattle.pool_words.specs.Views.{stored};

    ghost then = { stored };
}

pub(crate) struct Publishes;

impl Play<(), View> for Publishes {
    ghost use Rattle.pool_words.specs.Views.{published};

    ghost then = { published };
}

/// A new seat knows as much, and is no shard's writer.
pub(crate) struct Copies;

impl Split<View> for Copies {
    ghost use Rattle.pool_words.specs.Views.{reader};

    ghost left = { λ v. v };

    ghost right = { reader };
}

/// A new seat knows as much, and takes over the first writer's part.
pub(crate) struct HandsOver;

impl Split<View> for HandsOver {
    ghost use Rattle.pool_words.specs.Views.{with_first, with_others};

    ghost left = { with_others };

    ghost right = { with_first };
}

/// A seat is told of what another one knew, which is spent.
pub(crate) struct Tells;

impl Join<View> for Tells {
    ghost use Rattle.pool_words.specs.Views.{informed, spent_view};

    ghost both = { informed };

    ghost spent = { spent_view };
}

/// A seat takes over the one shard of another one, which is spent.
pub(crate) struct Gathers;

impl Join<View> for Gathers {
    ghost use Rattle.pool_words.specs.Views.{gathered, spent_view};

    ghost both = { gathered };

    ghost spent = { spent_view };
}

/// The words of a pool, which its seats share.
pub type Words = Table<(), View, Layout, PoolRule, Global>;

/// A seat at the words.
pub type WordSeat = Seat<(), View>;
