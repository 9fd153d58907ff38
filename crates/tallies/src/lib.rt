// What the program prints of a tally: a line for each grade.
#![tactic(auto, unfolding(crate::specs::Room::tally_room, board::specs::Tally::tally_kinds, board::specs::Tally::tally_grades, printing::specs::Lines::room))]

ghost use Rattle.std.specs.Prelude.{◌≡◌, ◌+◌, ◌≤◌, ◌<◌, length};
ghost use Rattle.board.specs.Kinds.{kind_number};
ghost use Rattle.board.specs.Tally.{tally_grades, count_at};
ghost use Rattle.lines.specs.Output.{printed_tally};
ghost use Rattle.buffer.specs.Puts.{PutWithin, PutIf};
ghost use Rattle.tallies.specs.Room.{tally_room, tally_fits};

use board::{Kind, Tally};

// Bytes that are enough for the tally.
pub const TALLY_ROOM: usize = Tally::GRADES * printing::LINE_ROOM;

// A count of the tally.
#[tactic(auto, using(board::proofs::Tallies::Kinds::kind_below), unfolding(board::specs::Tally::tally_kinds, board::specs::Tally::tally_grades, board::specs::Tally::cell, board::specs::Tally::count_at))]
fn count_of(t: Tally, kind: Kind, grade: usize) -> u64
    requires { grade < tally_grades }
    ensures { result ≡ count_at t (kind_number kind) grade }
{
    t.counts[kind.number() as usize * Tally::GRADES + grade] as u64
}

// Prints a line of the tally for each of so many grades, where there is room; where the last one ends.
fn print_grades(t: Tally, grades: usize, out: &mut [u8], at: usize) -> usize
    requires { (grades ≤ tally_grades) × (at + tally_room ≤ length out.old) }
    ensures { PutWithin tally_room (printed_tally grades 0 t) out.old at result out.new }
{
    let mut end = at;
    for g in 0..grades {
        let numbers = [
            g as u64,
            count_of(t, Kind::Admitted, g),
            count_of(t, Kind::Baked, g),
            count_of(t, Kind::GivenUp, g),
            count_of(t, Kind::Withdrawn, g),
        ];
        end = printing::print_at(out, end, b'T', &numbers);
    }
    end
}

// Whether the tally may be printed: of no more grades than it has, and with room for as many as it has.
#[tactic(auto, using(std::proofs::lemmas::Bool::Decides::nat_tests), unfolding(crate::specs::Room::tally_fits, crate::specs::Room::tally_room, board::specs::Tally::tally_grades, printing::specs::Lines::room))]
fn tally_fits(grades: usize, at: usize, end: usize) -> bool
    ensures { result ≡ tally_fits grades at end }
{
    grades <= Tally::GRADES && buffer::room_for(TALLY_ROOM, at, end)
}

// Prints the tally at `at`, a line for each of so many grades; where it ends. Of more grades than the tally has, or where the buffer has no room for
// as many as it has, nothing is printed.
pub fn print_tally(t: Tally, grades: usize, out: &mut [u8], at: usize) -> usize
    ensures { let fits = tally_fits grades at (length out.old) in
        PutIf fits tally_room (printed_tally grades 0 t) out.old at result out.new }
{
    if !tally_fits(grades, at, out.len()) {
        return at;
    }
    print_grades(t, grades, out, at)
}
