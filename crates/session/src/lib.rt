// What a line does to the day. That the open board is sound is a hypothesis of each promise and no type's invariant: `step_line` is safe on every day
// (docs/ARCHITECTURE.md). Board and tally are lent apart, as a day parts them once its board is open.
#![tactic(auto)]

ghost use Rattle.std.specs.Prelude.{◌≡◌, true};
ghost use Rattle.board.specs.Sound.{sound};
ghost use Rattle.lines.specs.Fields.{grade_meant};
ghost use Rattle.lines.specs.Session.{step_open, step_admit, step_close, step_promise, step_withdraw, step};
ghost use Rattle.fields.specs.Grades.{grade_of};
ghost use Rattle.packing.specs.Inner.Packed.{board_of};
ghost use Rattle.session.specs.Inner.Days.{session_of, GoodDay, open_day, done, stepped_to, answered_to, Did, DidAlone, Room};

use answers::{Answer, Closing};
use board::{Board, Laxity, Refusal, Tally};
use fields::grades::{Grade, grade_meant};
use packing::Packed;
use requests::Asked;

// The board, if one is open, in arrays that are written in place; and the tally.
#[derive(Clone, Copy)]
pub struct Day {
    pub board: Option<Packed>,
    pub tally: Tally,
}

// What a line is answered, and how many jobs given up stand in the lists.
#[derive(Clone, Copy)]
pub struct Stepped {
    pub answer: Answer,
    pub listed: usize,
}

// A line that opens.
fn open_line(day: &mut Day, depth: u32) -> Result<Answer, Refusal>
    ensures { GoodDay day.old → DidAlone day.old (step_open (session_of day.old).board depth) (answered_to result day.new) }
{
    let board = Board::new(depth)?;
    day.board = Some(packing::unpack(&board));
    Ok(Answer::Opened(depth))
}

// A line that admits, with the grade that it means on the open board.
fn admit_line(
    board: &mut Packed,
    tally: &mut Tally,
    ticket: u32,
    laxity: Laxity,
    grade: Grade,
) -> Result<Answer, Refusal>
    ensures { let b = board_of board.old in
        let step = step_admit b ticket laxity.0 (grade_meant b.depth (grade_of grade)) in
        (sound b ≡ true → DidAlone (open_day board.old tally.old) step (answered_to result (open_day board.new tally.new))) }
{
    let meant = grade_meant(board.head.depth, grade);
    let last = placing::admit_packed(board, ticket, laxity, meant)?;
    events::count_admitted(tally, meant);
    Ok(Answer::Admitted(ticket, last))
}

// A line that closes. The jobs given up are the first in the lists, which are three slices, as `close_packed` and the C interface take them.
fn close_line(
    board: &mut Packed,
    tally: &mut Tally,
    expired: &mut [u32],
    grades: &mut [u8],
    slots: &mut [u32],
) -> Result<Stepped, Refusal>
    ensures { let b = board_of board.old in
        let r = stepped_to result (open_day board.new tally.new) in
        (sound b ≡ true → Room expired.old grades.old slots.old → Did (open_day board.old tally.old) (step_close b) r expired.new grades.new) }
{
    let slot = board.head.slot;
    let c = closing::close_packed(board, expired, grades, slots)?;
    let listed = c.listed as usize;
    events::count_baked(tally, c.ticket, c.grade);
    events::count_given_up(tally, &grades[..listed]);
    let closing = Closing {
        slot,
        ticket: c.ticket,
        grade: c.grade,
        shortfall: c.shortfall,
    };
    Ok(Stepped {
        answer: Answer::Closed(closing),
        listed,
    })
}

// A line that asks what can be promised: the day is as it was. 0 says that nothing can.
fn promise_line(board: &Packed) -> Result<Answer, Refusal>
    ensures { let b = board_of board.now in
        ((t : Tally) → sound b ≡ true → DidAlone (open_day board.now t) (step_promise b) (answered_to result (open_day board.now t))) }
{
    let laxity = promising::promise_packed(board)?;
    Ok(Answer::Promised(laxity.unwrap_or(Laxity(0))))
}

// A line that withdraws. It is rare, so the board is handed over as a whole.
fn withdraw_line(board: &mut Packed, tally: &mut Tally, ticket: u32) -> Result<Answer, Refusal>
    ensures { let b = board_of board.old in
        (sound b ≡ true → DidAlone (open_day board.old tally.old) (step_withdraw b ticket) (answered_to result (open_day board.new tally.new))) }
{
    let mut held = packing::pack(board);
    let grade = withdrawing::withdraw_by_rows(&mut held, ticket)?;
    events::count_withdrawn(tally, grade);
    *board = packing::unpack(&held);
    Ok(Answer::Withdrawn(ticket))
}

// What a line does that is not refused, or why it is.
fn do_line(
    day: &mut Day,
    line: &[u8],
    expired: &mut [u32],
    grades: &mut [u8],
    slots: &mut [u32],
) -> Result<Stepped, Refusal>
    ensures { let r = stepped_to result day.new in
        (GoodDay day.old → Room expired.old grades.old slots.old → Did day.old (step (session_of day.old).board line.now) r expired.new grades.new) }
{
    let asked = reading::read_line(line, day.board.is_some())?;
    let answer = match (asked, &mut day.board) {
        (Asked::Open(depth), _) => open_line(day, depth)?,
        (Asked::Admit(ticket, laxity, grade), Some(board)) => {
            admit_line(board, &mut day.tally, ticket, laxity, grade)?
        }
        (Asked::Close, Some(board)) => {
            return close_line(board, &mut day.tally, expired, grades, slots);
        }
        (Asked::Promise, Some(board)) => promise_line(board)?,
        (Asked::Withdraw(ticket), Some(board)) => { withdraw_line(board, &mut day.tally, ticket)? }
        (_, None) => unreachable!(),
    };
    Ok(Stepped { answer, listed: 0 })
}

// What a line does, the line end not among its bytes.
pub fn step_line(
    day: &mut Day,
    line: &[u8],
    expired: &mut [u32],
    grades: &mut [u8],
    slots: &mut [u32],
) -> Stepped
    ensures { let r = done result day.new in
        (GoodDay day.old → Room expired.old grades.old slots.old → Did day.old (step (session_of day.old).board line.now) r expired.new grades.new) }
{
    match do_line(day, line, expired, grades, slots) {
        Ok(stepped) => stepped,
        Err(refusal) => Stepped {
            answer: Answer::Refused(refusal.number()),
            listed: 0,
        },
    }
}
