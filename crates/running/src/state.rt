// What a program holds between two bytes.
ghost use Rattle.std.specs.Prelude.{◌≤◌};
ghost use Rattle.lines.specs.Machine.{partial_room};
ghost use Rattle.session.specs.Inner.Days.{GoodDay};

use cutting::Partial;
use printers::Printer;
use session::Day;

// The day, what the printer knows, and the bytes so far of the line that is being read.
#[derive(Clone, Copy)]
pub struct State {
    pub day: Day,
    pub printer: Printer,
    pub partial: Partial,
    ghost good: { GoodDay day },
    ghost few: { partial.len ≤ partial_room },
}
