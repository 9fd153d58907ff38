// Withdrawing a job: 02's rows 2, 3 and 17 in order, then the board without it.
#![tactic(auto)]

ghost use Rattle.std.specs.Prelude.{◌≡◌, ◌==◌, Err};
ghost use Rattle.std.specs.List.{find};
ghost use Rattle.board.specs.Held.{used};
ghost use Rattle.board.specs.Withdraw.{without_ticket, withdrawn};
ghost use Rattle.withdrawing.specs.Inner.AnyBoard.{withdrawn_of, left_by, withdrawn_by_rows};

use board::{Board, Place, Refusal, Withdrawn};

// The first job on the board that has this ticket.
#[tactic(auto, unfolding(board::specs::Held::used))]
fn job_with(b: &Board, ticket: u32) -> Option<Place>
    ensures { result ≡ find (λ p. p.ticket == ticket) (used b.now) }
{
    b.places
        .iter()
        .take(b.count)
        .copied()
        .find(|p| p.ticket == ticket)
}

// The board without the job that has this ticket.
fn without(b: &Board, ticket: u32) -> Board
    ensures { result ≡ without_ticket b.now ticket }
{
    let held = b.count.min(Board::PLACES);
    let mut places = [Place::blank(); Board::PLACES];
    let mut count: usize = 0;
    for p in &b.places[..held] {
        if p.ticket != ticket {
            places[count] = *p;
            count += 1;
        }
    }
    Board {
        count,
        places,
        ..*b
    }
}

// Rows 3 and 17 of any board: the grade of the job to take off.
fn to_withdraw(b: &Board, ticket: u32) -> Result<u8, Refusal>
    ensures { withdrawn_of result (left_by result b.now ticket) ≡ withdrawn_by_rows b.now ticket }
{
    if b.slot.0 == Board::LAST_SLOT + 1 {
        return Err(Refusal::BookEnded);
    }
    let job = job_with(b, ticket).ok_or(Refusal::NotToWithdraw)?;
    if job.admitted == b.slot {
        return Err(Refusal::NotToWithdraw);
    }
    Ok(job.grade)
}

// Rows 3 and 17 of any board, and then the board without the job, whose grade is the answer. On a sound board that is 02's
// withdrawal. A board whose withdrawal is refused stays as it was.
pub fn withdraw_by_rows(b: &mut Board, ticket: u32) -> Result<u8, Refusal>
    ensures { withdrawn_of result b.new ≡ withdrawn_by_rows b.old ticket }
{
    let grade = to_withdraw(b, ticket)?;
    *b = without(b, ticket);
    Ok(grade)
}

// The answer of a refused withdrawal.
fn refused(refusal: Refusal, board: Board) -> Withdrawn
    ensures { result ≡ withdrawn_of (Err refusal) board }
{
    Withdrawn {
        refusal: refusal.number(),
        grade: 0,
        board,
    }
}

// Withdraws a job: 02's rows 2, 3 and 17 in order, then the board without it.
pub fn withdraw(b: Board, ticket: u32) -> Withdrawn
    ensures { result ≡ withdrawn b ticket }
{
    if !soundness::is_sound(b) {
        return refused(Refusal::NotSound, b);
    }
    match to_withdraw(&b, ticket) {
        Ok(grade) => Withdrawn {
            refusal: 0,
            grade,
            board: without(&b, ticket),
        },
        Err(refusal) => refused(refusal, b),
    }
}
