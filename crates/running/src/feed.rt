// Bytes taken in: lines of any length, of which so many bytes are kept that one too long is known.
ghost use Rattle.std.specs.Prelude.{◌≡◌, ◌+◌, ◌≤◌, ◌<◌, ◌^◌, not, eqb, length};
ghost use Rattle.lines.specs.Output.{at_end};
ghost use Rattle.lines.specs.Printers.{answers_printed};
ghost use Rattle.lines.specs.Machine.{partial_room, last_answers, last_session, last_printer, printed_at_end};
ghost use Rattle.buffer.specs.Puts.{PutWithin};
ghost use Rattle.cutting.specs.Cut.{partial_bytes};
ghost use Rattle.tallies.specs.Room.{tally_room};
ghost use Rattle.answers.specs.Printed.{answer_room};
ghost use Rattle.session.specs.Inner.Days.{session_of, GoodDay};
ghost use Rattle.running.specs.Inner.Days.{after_line, Given};
ghost use Rattle.running.specs.Inner.Machines.{NewState, machine_of, after, TakenIn, GoesOn, PutAt};

use crate::answering;
use crate::answering::Lists;
pub use crate::state::State;
use board::Board;
use cutting::Partial;
use page::Page;
use printers::{Printer, Program};
use session::Day;

// Some of a chunk taken in: how far the chunk is used, and where the output ends.
#[derive(Clone, Copy)]
pub struct Fed {
    pub used: usize,
    pub at: usize,
}

// The state before the first byte.
pub(crate) fn new_state(program: Program) -> State
    ensures { NewState program result }
{
    let day = Day {
        board: None,
        tally: tally::zero(),
    };
    let printer = Printer {
        program,
        number: 1,
        page: Page::new(),
    };
    State {
        day,
        printer,
        partial: cutting::no_bytes(),
    }
}

// Takes in the chunk's bytes from `from` on, up to the end of the line that they begin with or go on with, or to the chunk's end. The line's bytes are kept. What
// is asked for here is of two arguments each, a chunk or a buffer and a place in it, and so no type's invariant.
fn feed_part(
    state: &mut State,
    chunk: &[u8],
    from: usize,
    lists: &mut Lists,
    out: &mut [u8],
    at: usize,
) -> Fed
    requires in_chunk { from ≤ length chunk.now }
    requires has_room { at + answer_room ≤ length out.old }
    requires few_lines { state.old.printer.number < 2 ^ 63 }
    ensures taken_in { TakenIn state.old chunk.now from out.old at (after state.new result) out.new }
    ensures forward { from < length chunk.now → from < result.used }
{
    let cut = cutting::cut_line(state.partial, chunk, from);
    state.partial = cut.partial;
    if !cut.ended {
        return Fed { used: cut.used, at };
    }
    let line = &cut.partial.bytes[..cut.partial.len];
    let end = answering::answer_line(&mut state.day, &mut state.printer, line, lists, out, at);
    state.partial.len = 0;
    Fed {
        used: cut.used,
        at: end,
    }
}

// Takes in one line, as far as it is in the chunk from `from` on: a whole one where it lies, the rest of one that has begun and the beginning of one that does
// not end here by its bytes.
fn feed_line(
    state: &mut State,
    chunk: &[u8],
    from: usize,
    lists: &mut Lists,
    out: &mut [u8],
    at: usize,
) -> Fed
    requires in_chunk { from ≤ length chunk.now }
    requires has_room { at + answer_room ≤ length out.old }
    requires few_lines { state.old.printer.number < 2 ^ 63 }
    ensures taken_in { TakenIn state.old chunk.now from out.old at (after state.new result) out.new }
    ensures forward { from < length chunk.now → from < result.used }
{
    if state.partial.len == 0 {
        let to = lists::next_byte(chunk, from, b'\n');
        if to < chunk.len() {
            let line = &chunk[from..to];
            let day = &mut state.day;
            let end = answering::answer_line(day, &mut state.printer, line, lists, out, at);
            return Fed {
                used: to + 1,
                at: end,
            };
        }
    }
    feed_part(state, chunk, from, lists, out, at)
}

// Takes in the chunk's bytes from `from` on, while the buffer has room for what a line may print. State, chunk and buffer stay apart: a struct of references to them
// would be no plainer, since each call lends them anew.
pub(crate) fn feed(state: &mut State, chunk: &[u8], from: usize, out: &mut [u8], at: usize) -> Fed
    requires in_chunk { from ≤ length chunk.now }
    requires in_buffer { at ≤ length out.old }
    requires few_lines { state.old.printer.number + length chunk.now < from + 2 ^ 63 }
    ensures taken_in { TakenIn state.old chunk.now from out.old at (after state.new result) out.new }
    ensures goes_on { GoesOn chunk.now from out.old at (after state.new result) }
{
    let mut lists = Lists::new();
    let mut used = from;
    let mut end = at;
    while used < chunk.len() && end + answers::ANSWER_ROOM <= out.len() {
        let fed = feed_line(state, chunk, used, &mut lists, out, end);
        used = fed.used;
        end = fed.at;
    }
    Fed { used, at: end }
}

// Whether a byte of a line is there.
fn has_begun(partial: Partial) -> bool
    requires { partial.len ≤ partial_room }
    ensures { result ≡ not (eqb (length (partial_bytes partial)) 0) }
{
    partial.len != 0
}

// Answers a line that has begun; where its print ends.
fn last_line(state: &mut State, out: &mut [u8], at: usize) -> usize
    requires has_room { at + answer_room ≤ length out.old }
    requires few_lines { state.old.printer.number < 2 ^ 63 }
    ensures { let m = machine_of state.old in
        let after = after_line state.new.day state.new.printer result in
        Given (answers_printed m.printer (last_answers m)) (last_session m) (last_printer m) out.old at after out.new }
{
    if !has_begun(state.partial) {
        return at;
    }
    let mut lists = Lists::new();
    let line = &state.partial.bytes[..state.partial.len];
    answering::answer_line(
        &mut state.day,
        &mut state.printer,
        line,
        &mut lists,
        out,
        at,
    )
}

// Prints the tally of an open board; where it ends.
fn print_day(day: &Day, out: &mut [u8], at: usize) -> usize
    requires good_day { GoodDay day.now }
    requires has_room { at + tally_room ≤ length out.old }
    ensures { let s = session_of day.now in
        PutWithin tally_room (at_end s.board s.tally) out.old at result out.new }
{
    let Some(board) = &day.board else {
        return at;
    };
    let grades = Board::grade_count(board.head.depth) as usize;
    tallies::print_tally(day.tally, grades, out, at)
}

// The end of input: a line that has begun is answered; then comes the tally of an open board, or the sheet's last page.
pub(crate) fn finish(state: &mut State, out: &mut [u8], at: usize) -> usize
    requires has_room { at + answer_room + answer_room ≤ length out.old }
    requires few_lines { state.old.printer.number < 2 ^ 63 }
    ensures { PutAt (printed_at_end (machine_of state.old)) out.old at result out.new }
{
    let end = last_line(state, out, at);
    match state.printer.program {
        Program::Board => print_day(&state.day, out, end),
        Program::Sheet => printers::print_last(&state.printer.page, out, end),
    }
}
