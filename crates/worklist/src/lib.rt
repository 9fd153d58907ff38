// A list of racks, a line `first,last` each, best first: its windows, or the first line that is refused.
#![tactic(auto)]

ghost use Rattle.std.specs.Prelude.{◌≡◌, ◌≤◌};
ghost use Rattle.matching.specs.Windows.{most_jobs, no_window, is_window as is_window_of, windows_of};
ghost use Rattle.worklist.specs.Lines.{window_result, window_read};
ghost use Rattle.worklist.specs.Refusals.{or_else};
ghost use Rattle.worklist.specs.Statements.{most_read, Worklist};
ghost use Rattle.worklist.specs.Inner.Collecting.{as_refusal, with_window, CollectedFrom, passing, refused_by_call};

use board::{Refusal, Slot};
use fields::numbers::number_at;
use matching::{Jobs, Window};

// A line that is refused, counted from 1, and its number.
#[derive(Clone, Copy)]
pub struct Refused {
    pub line: u64,
    // Not a `Refusal`: the C interface. Of the call's refusals it is the number that a `BestDay` has.
    pub number: u8,
}

// The first line that is refused, if there is one, and the jobs of the lines before it.
// Not a `Result`, which is no plainer: `refusal` takes both, and the call is asked of the jobs in either case.
#[derive(Clone, Copy)]
pub struct Collected {
    pub refused: Option<Refused>,
    pub jobs: Jobs,
}

impl Collected {
    // Bytes that are enough to know what is printed: a line more than there may be, each as long as it may be, with their line ends.
    pub const MOST_READ: usize = (Jobs::MOST + 1) * (reading::LONGEST_LINE + 1);
}

// The limit of the definitions is the constant of `Collected`.
#[tactic(auto, unfolding(crate::specs::Statements::most_read, lines::specs::Reading::longest_line))]
fn limits()
    ensures { Collected.MOST_READ ≡ most_read }
{}

// What is proved of what is printed of a list.
pub fn statements()
    ensures { Worklist }
{}

// No window.
#[tactic(auto, unfolding(matching::specs::Windows::no_window))]
fn blank() -> Window
    ensures { result ≡ no_window }
{
    Window {
        first: Slot(0),
        last: Slot(0),
    }
}

// Reads a line: its window, or the row that refuses it.
// Not `?`: 01 has each field's answer taken apart by let .. else.
pub fn read_window(line: &[u8]) -> Result<Window, Refusal>
    ensures { window_result result ≡ window_read line.now }
{
    if reading::LONGEST_LINE < line.len() {
        return Err(Refusal::LineTooLong);
    }
    let a = number_at(line, 0);
    let b = number_at(line, a.end + 1);
    if b.end != line.len() {
        return Err(Refusal::FieldCount);
    }
    let Ok(first) = a.number else {
        return Err(Refusal::NotANumber);
    };
    let Ok(last) = b.number else {
        return Err(Refusal::NotANumber);
    };
    Ok(Window {
        first: Slot(first),
        last: Slot(last),
    })
}

// Puts one more window to the jobs, while there is a place for it; of one too many only the count is kept.
fn add_window(d: &mut Jobs, w: Window)
    ensures { d.new ≡ with_window d.old w }
{
    let at = d.count;
    if at < Jobs::MOST {
        d.windows[at] = w;
        d.count = at + 1;
    } else {
        d.count = Jobs::MOST + 1;
    }
}

// Reads the lines of a list up to the first that is refused, or to the first that is one too many.
pub fn collect(input: &[u8]) -> Collected
    ensures { CollectedFrom input.now result }
{
    let windows = [blank(); Jobs::MOST];
    let mut jobs = Jobs { count: 0, windows };
    for piece in input.split_inclusive(|b| *b == b'\n').take(Jobs::MOST + 1) {
        let line = piece.strip_suffix(b"\n").unwrap_or(piece);
        match read_window(line) {
            Ok(window) => add_window(&mut jobs, window),
            Err(row) => {
                let line = jobs.count as u64 + 1;
                let number = row.number();
                let refused = Some(Refused { line, number });
                return Collected { refused, jobs };
            }
        }
    }
    Collected {
        refused: None,
        jobs,
    }
}

// How many jobs stand before the first without a window.
pub fn windows_first(d: Jobs) -> usize
    ensures { (result ≡ passing is_window_of (windows_of d)) × (result ≤ most_jobs) }
{
    let n = lists::lesser(d.count, Jobs::MOST);
    let first = d.windows[..n]
        .iter()
        .position(|w| !hindsight::is_window(*w));
    first.unwrap_or(n)
}

// The line that is refused, with its number: the one found in reading, or else the one that the call's number names, where it has one. That is a number and no
// `Refusal`, since it is the one in C's `BestDay`.
pub fn refusal(c: Collected, number: u8) -> Option<Refused>
    ensures { as_refusal result ≡ or_else (as_refusal c.refused) (refused_by_call number c.jobs) }
{
    if let Some(refused) = c.refused {
        return Some(refused);
    }
    if number == 0 {
        return None;
    }
    if number == Refusal::TooManyJobs.number() {
        return Some(Refused {
            line: (Jobs::MOST + 1) as u64,
            number,
        });
    }
    let first = windows_first(c.jobs);
    Some(Refused {
        line: first as u64 + 1,
        number,
    })
}
