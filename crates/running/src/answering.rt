// A line answered, where it lies.
ghost use Rattle.std.specs.Prelude.{◌+◌, ◌≤◌, ◌<◌, ◌^◌, length};
ghost use Rattle.answers.specs.Printed.{answer_room};
ghost use Rattle.session.specs.Inner.Days.{GoodDay};
ghost use Rattle.running.specs.Inner.Days.{after_line, Answered};

use answers::GivenUp;
use board::Board;
use printers::Printer;
use session::Day;

// Lists for the jobs that a closing gives up, with an entry for every place of a board: three arrays, since it writes three slices, as the C interface lends
// them. (`Parts` of entries holds the same three, and reads them: a type for both would stand below a crate of the library.)
#[derive(Drop)]
pub struct Lists {
    tickets: [u32; Board::PLACES],
    grades: [u8; Board::PLACES],
    slots: [u32; Board::PLACES],
}

impl Lists {
    // Lists in which nothing stands yet.
    pub(crate) fn new() -> Lists {
        Lists {
            tickets: [0; Board::PLACES],
            grades: [0; Board::PLACES],
            slots: [0; Board::PLACES],
        }
    }
}

// Answers a line, the line end not among its bytes; where its print ends.
pub(crate) fn answer_line(
    day: &mut Day,
    printer: &mut Printer,
    line: &[u8],
    lists: &mut Lists,
    out: &mut [u8],
    at: usize,
) -> usize
    requires good_day { GoodDay day.old }
    requires has_room { at + answer_room ≤ length out.old }
    requires few_lines { printer.old.number < 2 ^ 63 }
    ensures { Answered day.old printer.old line.now out.old at (after_line day.new printer.new result) out.new }
{
    let stepped = session::step_line(
        day,
        line,
        &mut lists.tickets,
        &mut lists.grades,
        &mut lists.slots,
    );
    let given_up = GivenUp {
        tickets: &lists.tickets[..stepped.listed],
        grades: &lists.grades[..stepped.listed],
    };
    printers::print_by(printer, stepped.answer, given_up, out, at)
}
