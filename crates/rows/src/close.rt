// The rows of a closing: 01's rows 3 and 8.
ghost use Rattle.std.specs.Prelude.{◌≡◌};
ghost use Rattle.board.specs.Refusals.{refusal_number};
ghost use Rattle.board.specs.Rows.{first_given, close_rows};

use board::{Board, Refusal, Slot};

// The first of rows 3 and 8 that fails, with so many entries lent.
pub fn first_row(now: Slot, lent: usize) -> Result<(), Refusal>
    ensures { refusal_number result ≡ first_given (close_rows now.0 lent) }
{
    if now.0 == Board::LAST_SLOT + 1 {
        return Err(Refusal::BookEnded);
    }
    if lent < Board::PLACES {
        return Err(Refusal::ListTooShort);
    }
    Ok(())
}
