//! Where reading stands in a text.
ghost use Rattle.std.specs.Prelude.{◌≡◌, ◌≤◌, ◌<◌, ◌+◌, ◌^◌};
ghost use Rattle.std.specs.Char.{len_utf8};
ghost use Rattle.std.specs.Prelude.{◌-◌};
ghost use Rattle.dcx_tokens.specs.Position.{bytes_of, moved_over, next_at, line_behind, start_of_text, IsInText};

use dcx_shape::Place;

/// The number of bytes in front, and the place of the next one.
#[derive(Clone, Copy)]
pub(crate) struct Position {
    pub offset: u32,
    pub place: Place,
}

/// The start of a text.
pub(crate) fn start_of_text() -> Position
    ensures value { result ≡ start_of_text }
    ensures within { IsInText result }
{
    Position {
        offset: 0,
        place: Place { line: 1, column: 1 },
    }
}

/// The position behind a character.
pub(crate) fn behind(at: Position, c: char) -> Position
    requires within { IsInText at }
    requires room { at.offset + len_utf8 c < 2 ^ 32 - 1 }
    ensures value { result ≡ next_at at c }
    ensures within { IsInText result }
{
    let size = c.len_utf8() as u32;
    let place = if c == '\n' {
        Place {
            line: at.place.line + 1,
            column: 1,
        }
    } else {
        Place {
            line: at.place.line,
            column: at.place.column + size,
        }
    };
    Position {
        offset: at.offset + size,
        place,
    }
}

/// The position behind these characters.
pub(crate) fn behind_all(at: Position, chars: &[char]) -> Position
    requires within { IsInText at }
    requires room { at.offset + bytes_of chars.now < 2 ^ 32 - 1 }
    ensures value { result ≡ moved_over at chars.now }
    ensures within { IsInText result }
    ensures offset { result.offset ≡ at.offset + bytes_of chars.now }
{
    let mut position = at;
    for c in chars {
        position = behind(position, *c);
    }
    position
}

/// The first column of the line behind the last, where a text ends at this position.
pub(crate) fn behind_last_line(at: Position) -> Place
    requires within { IsInText at }
    requires room { at.offset < 2 ^ 32 - 1 }
    ensures { result ≡ line_behind at.place }
{
    if at.place.column == 1 {
        at.place
    } else {
        Place {
            line: at.place.line + 1,
            column: 1,
        }
    }
}
