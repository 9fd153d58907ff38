// The calls for callers in C or Rust. Numbers and structs pass as themselves, a slice as a pointer and then a length.
#![tactic(auto)]

ghost use Rattle.std.specs.Prelude.{◌≡◌};
ghost use Rattle.board.specs.Sound.{sound};
ghost use Rattle.board.specs.Open.{opened};
ghost use Rattle.board.specs.Admit.{admitted};
ghost use Rattle.board.specs.Lent.{lent_of, ClosedInto};
ghost use Rattle.board.specs.Promise.{promised};
ghost use Rattle.board.specs.Withdraw.{withdrawn};
ghost use Rattle.board.specs.Tally.{zero_tally, counted};
ghost use Rattle.matching.specs.Answer.{best_day};

use board::{Admitted, Board, Closed, Counted, Laxity, Opened, Promised, Tally, Withdrawn};
use matching::{BestDay, Jobs};

pub mod lent;

#[unsafe(no_mangle)]
pub extern "C" fn oven_sound(b: Board) -> bool
    ensures { result ≡ sound b }
{
    soundness::is_sound(b)
}

#[unsafe(no_mangle)]
pub extern "C" fn oven_open(depth: u32) -> Opened
    ensures { result ≡ opened depth }
{
    Board::open(depth)
}

#[unsafe(no_mangle)]
pub extern "C" fn oven_admit(b: Board, ticket: u32, laxity: Laxity, grade: u32) -> Admitted
    ensures { result ≡ admitted b ticket laxity.0 grade }
{
    admitting::admit(b, ticket, laxity, grade)
}

#[unsafe(no_mangle)]
pub extern "C" fn oven_close(
    b: Board,
    tickets: &mut [u32],
    grades: &mut [u8],
    slots: &mut [u32],
) -> Closed
    ensures { let before = lent_of tickets.old grades.old slots.old in
        let after = lent_of tickets.new grades.new slots.new in
        ClosedInto b before after result }
{
    closing::close(b, tickets, grades, slots)
}

#[unsafe(no_mangle)]
pub extern "C" fn oven_promise(b: Board) -> Promised
    ensures { result ≡ promised b }
{
    promising::promise(b)
}

#[unsafe(no_mangle)]
pub extern "C" fn oven_withdraw(b: Board, ticket: u32) -> Withdrawn
    ensures { result ≡ withdrawn b ticket }
{
    withdrawing::withdraw(b, ticket)
}

#[unsafe(no_mangle)]
pub extern "C" fn oven_count(t: Tally, kind: u32, grade: u32) -> Counted
    ensures { result ≡ counted t kind grade }
{
    tally::count_event(t, kind, grade)
}

#[unsafe(no_mangle)]
pub extern "C" fn oven_zero() -> Tally
    ensures { result ≡ zero_tally }
{
    tally::zero()
}

#[unsafe(no_mangle)]
pub extern "C" fn oven_best_day(d: Jobs) -> BestDay
    ensures { result ≡ best_day d }
{
    hindsight::find_best_day(d)
}
