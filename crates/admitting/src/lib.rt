// Admitting a job: 01's rows 2 to 7 in order, then the job in the first free place.
#![tactic(auto)]

ghost use Rattle.std.specs.Prelude.{◌≡◌, ◌≤◌};
ghost use Rattle.board.specs.Limits.{places_held};
ghost use Rattle.board.specs.Admit.{admitted};
ghost use Rattle.admitting.specs.Inner.InLimits.{in_slot_before, admitted_in_limits};
ghost use Rattle.admitting.specs.Inner.Answer.{admitted_answer};

use board::{Admitted, Board, Laxity, Place, Refusal, Slot};
use rows::first_row;

pub mod holds_board;

pub use holds_board::HoldsBoard;

// How many jobs at the board's end were admitted in its slot. On a sound board no others were: admitted slots never fall along it.
fn in_slot<B: HoldsBoard>(b: &B) -> usize
    requires { (B.board b.now).count ≤ places_held }
    ensures { let board = B.board b.now in result ≡ in_slot_before board board.count }
{
    let head = b.head();
    for at in (0..head.count).rev() {
        if b.admitted_at(at).0 != head.slot.0 {
            return head.count - 1 - at;
        }
    }
    head.count
}

// Admits a job on a board, in whatever form it is held, of which only the limits are looked at: the job's last slot. Ticket, laxity and grade come one by one, as
// the C interface has them (`oven_admit`).
pub fn admit_on<B: HoldsBoard>(
    b: &mut B,
    ticket: u32,
    laxity: Laxity,
    grade: u32,
) -> Result<Slot, Refusal>
    ensures { admitted_answer result (B.board b.new) ≡ admitted_in_limits (B.board b.old) ticket laxity.0 grade }
{
    let head = b.head();
    if !soundness::in_limits(head.depth, head.slot, head.count) {
        return Err(Refusal::NotSound);
    }
    let taken = in_slot(b);
    first_row(
        head.slot,
        head.highest,
        taken,
        head.depth,
        ticket,
        laxity,
        grade,
    )?;
    if Board::PLACES <= head.count {
        return Err(Refusal::NotSound);
    }
    let last = Slot(head.slot.0 + laxity.0 - 1);
    b.put(Place {
        ticket,
        admitted: head.slot,
        last,
        grade: grade as u8,
    });
    Ok(last)
}

// Admits a job on a board of which only the limits are looked at. On a sound board that is 01's admitting.
pub fn admit_in_limits(
    b: &mut Board,
    ticket: u32,
    laxity: Laxity,
    grade: u32,
) -> Result<Slot, Refusal>
    ensures { admitted_answer result b.new ≡ admitted_in_limits b.old ticket laxity.0 grade }
{
    admit_on(b, ticket, laxity, grade)
}

// Admits a job: 01's rows 2 to 7 in order, then the job in the first free place.
// The answer has a number beside its slot and board: it is the C interface's.
pub fn admit(b: Board, ticket: u32, laxity: Laxity, grade: u32) -> Admitted
    ensures { result ≡ admitted b ticket laxity.0 grade }
{
    let mut answer = Admitted {
        refusal: 0,
        last: Slot(0),
        board: b,
    };
    if !soundness::is_sound(b) {
        answer.refusal = Refusal::NotSound.number();
        return answer;
    }
    match admit_in_limits(&mut answer.board, ticket, laxity, grade) {
        Ok(last) => answer.last = last,
        Err(refusal) => answer.refusal = refusal.number(),
    }
    answer
}
