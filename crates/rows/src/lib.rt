// The rows of admitting, 01's rows 3 to 7 in order, and those of a closing (module `close`).
#![tactic(auto)]

ghost use Rattle.std.specs.Prelude.{◌≡◌, ◌&&◌, ◌≤◌, leb};
ghost use Rattle.board.specs.Limits.{longest_laxity, deepest};
ghost use Rattle.board.specs.Refusals.{refusal_number};
ghost use Rattle.board.specs.Rows.{first_given, admit_rows};

use board::{Board, Laxity, Refusal, Slot};

pub mod close;

// Whether a job may wait so long: 1 slot at least, and no more than the longest laxity.
fn laxity_allowed(laxity: Laxity) -> bool
    ensures { result ≡ (leb 1 laxity.0 && leb laxity.0 longest_laxity) }
{
    1 <= laxity.0 && laxity.0 <= Board::LONGEST_LAXITY
}

// The first of 01's rows 3 to 7 that fails. `taken` jobs were admitted in the slot.
// Its seven parameters stay: docs/DECISIONS.md names this public function, so none may become part of a narrower type.
pub fn first_row(
    slot: Slot,
    highest: u32,
    taken: usize,
    depth: u8,
    ticket: u32,
    laxity: Laxity,
    grade: u32,
) -> Result<(), Refusal>
    ensures { depth ≤ deepest → refusal_number result ≡ first_given (admit_rows slot.0 highest taken depth ticket laxity.0 grade) }
{
    if slot.0 == Board::LAST_SLOT + 1 {
        return Err(Refusal::BookEnded);
    }
    if ticket <= highest {
        return Err(Refusal::TicketNotHigher);
    }
    if !laxity_allowed(laxity) {
        return Err(Refusal::LaxityOutside);
    }
    if Board::grade_count(depth) <= grade {
        return Err(Refusal::GradeTooHigh);
    }
    if Board::MOST_IN_SLOT <= taken {
        return Err(Refusal::SlotFull);
    }
    Ok(())
}
