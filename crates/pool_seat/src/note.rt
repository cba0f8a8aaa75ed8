// What a seat knows, to be handed on.
ghost use Rattle.std.specs.Prelude.{◌≡◌};

use pool_shard::RawSeat;
use std::marker::Model;

/// A copy of what a seat knew. Contracts see it as a seat that knows as much.
#[derive(Drop)]
pub struct Note {
    pub(crate) seat: RawSeat,
}

impl Model for Note {
    ghost use Rattle.pool_shard.specs.Pairs.{Rows};

    ghost Value = { Rows };

    ghost view = { λ n. n.seat };
}

impl Note {
    /// A seat that knows what the note does.
    pub fn into_seat(self) -> RawSeat
        ensures { result ≡ self }
    {
        let Note { seat } = self;
        seat
    }
}
