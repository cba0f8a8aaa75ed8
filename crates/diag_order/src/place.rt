// Lines and columns.
ghost use Rattle.std.specs.Prelude.{◌≡◌, ◌≤◌, ◌<◌, ◌+◌, ◌-◌, ◌^◌, length};
ghost use Rattle.diag_order.specs.Places.{line_at, col_at};

/// A place of a text: a byte, and its line and column, which count from 1.
#[derive(Clone, Copy, Debug, PartialEq, Eq)]
pub struct Place {
    pub offset: u32,
    pub line: u32,
    pub col: u32,
}

impl Place {
    pub const START: Place = Place {
        offset: 0,
        line: 1,
        col: 1,
    };
}

/// The place of a byte that is not before another, whose place is known.
#[tactic(auto)]
pub fn advance(text: &[u8], from: Place, to: u32) -> Place
    requires order { from.offset ≤ to }
    requires within { to ≤ length text.now }
    requires small { to + 1 < 2 ^ 32 }
    requires line { from.line ≡ line_at text.now from.offset }
    requires col { from.col ≡ col_at text.now from.offset }
    ensures offset { result.offset ≡ to }
    ensures line { result.line ≡ line_at text.now to }
    ensures col { result.col ≡ col_at text.now to }
{
    let mut place = from;
    while place.offset < to {
        if text[place.offset as usize] == b'\n' {
            place.line += 1;
            place.col = 1;
        } else {
            place.col += 1;
        }
        place.offset += 1;
    }
    place
}

/// The line and the column of a byte, or of the end of the text. Both count from 1, and the column
/// counts bytes; a line ends at LF. Takes no memory.
pub fn line_col(text: &[u8], offset: u32) -> (u32, u32)
    requires within { offset ≤ length text.now }
    requires small { offset + 1 < 2 ^ 32 }
    ensures line { result.0 ≡ line_at text.now offset }
    ensures col { result.1 ≡ col_at text.now offset }
{
    let place = advance(text, Place::START, offset);
    (place.line, place.col)
}
