// One line of the program's input, read: 01, 'Lines' and rows 11 to 15.
#![tactic(auto)]

ghost use Rattle.std.specs.Prelude.{◌≡◌};
ghost use Rattle.lines.specs.Reading.{field, longest_line};
ghost use Rattle.requests.specs.Answers.{asked_result};
ghost use Rattle.reading.specs.Answers.{line_result};
ghost use Rattle.reading.specs.Inner.Parts.{letter_result, letter_read};

use board::Refusal;
use fields::COMMA;
use requests::{Asked, LETTER_END, read_fields};

// Most bytes of a line, the line end not counted.
pub const LONGEST_LINE: usize = 40;

// The definition's most bytes of a line is the constant.
#[tactic(auto, unfolding(lines::specs::Reading::longest_line))]
fn limits()
    ensures { LONGEST_LINE ≡ longest_line }
{}

// The table of letters: a line's letter, and whether its line is for a board that is open. Row 12 refuses a first field that is none of them.
fn letter_of(line: &[u8]) -> Option<(u8, bool)>
    ensures { letter_result result ≡ letter_read (field 0 line.now) }
{
    if lists::next_byte(line, 0, COMMA) != LETTER_END {
        return None;
    }
    let b = line[0];
    match b {
        b'D' => Some((b, false)),
        b'A' => Some((b, true)),
        b'B' => Some((b, true)),
        b'Q' => Some((b, true)),
        b'W' => Some((b, true)),
        _ => None,
    }
}

// Reads a line, the line end not among its bytes; `opened` says whether a board is open.
pub fn read_line(line: &[u8], opened: bool) -> Result<Asked, Refusal>
    ensures { asked_result result ≡ line_result opened line.now }
{
    if LONGEST_LINE < line.len() {
        return Err(Refusal::LineTooLong);
    }
    let (letter, for_open) = letter_of(line).ok_or(Refusal::NoLetter)?;
    let read = read_fields(line, letter);
    if !read.whole {
        return Err(Refusal::FieldCount);
    }
    let asked = read.asked?;
    if opened != for_open {
        return Err(Refusal::NotNow);
    }
    Ok(asked)
}
