// A closing that writes 01's list as it is put there, one entry a job, into a slice of entries that the caller lends.
#![tactic(auto)]

ghost use Rattle.std.specs.Prelude.{◌≡◌, ◌<◌, length};
ghost use Rattle.board.specs.Limits.{places_held};
ghost use Rattle.board.specs.Close.{closed, listing};
ghost use Rattle.board.specs.Lent.{written_over};
ghost use Rattle.entries.specs.Entries.{entry_of};
ghost use Rattle.entries.specs.Inner.Parts.{entry_at, Gathered};

use board::{Board, Closed, Slot};

// 'One entry a rack: ticket, grade, admitted slot.'
#[repr(C)]
#[derive(Clone, Copy)]
pub struct Entry {
    pub ticket: u32,
    pub grade: u8,
    pub admitted: Slot,
}

// The entries of the jobs given up, each part in an array of its own, as `closing::close` writes them for C.
#[derive(Clone, Copy)]
struct Parts {
    tickets: [u32; Board::PLACES],
    grades: [u8; Board::PLACES],
    slots: [u32; Board::PLACES],
}

impl Parts {
    // One entry, put together from its parts.
    #[tactic(auto, unfolding(board::specs::Limits::places_held, crate::specs::Inner::Parts::entry_at))]
    fn entry(self, i: usize) -> Entry
        requires { i < places_held }
        ensures { result ≡ entry_at self i }
    {
        Entry {
            ticket: self.tickets[i],
            grade: self.grades[i],
            admitted: Slot(self.slots[i]),
        }
    }
}

// What a closing answers, how many jobs it gives up, and their entries.
#[derive(Clone, Copy)]
struct ClosedParts {
    answer: Closed,
    count: usize,
    parts: Parts,
}

// Closes a slot for a list of so many entries.
#[tactic(auto, unfolding(board::specs::Limits::places_held))]
fn closing(b: Board, lent: usize) -> ClosedParts
    ensures { Gathered b lent result }
{
    let mut tickets = [0u32; Board::PLACES];
    let mut grades = [0u8; Board::PLACES];
    let mut slots = [0u32; Board::PLACES];
    let n = lent.min(Board::PLACES);
    let answer = closing::close(b, &mut tickets[..n], &mut grades[..n], &mut slots[..n]);
    let count = answer.listed as usize;
    let parts = Parts {
        tickets,
        grades,
        slots,
    };
    ClosedParts {
        answer,
        count,
        parts,
    }
}

// Closes a slot and writes the jobs given up from the start of a list of entries that the caller lends.
#[unsafe(no_mangle)]
pub extern "C" fn oven_close_into(b: Board, list: &mut [Entry]) -> Closed
    ensures answer { result ≡ closed b (length list.old) }
    ensures list { list.new ≡ written_over entry_of (listing b (length list.old)) list.old }
{
    let closed = closing(b, list.len());
    let count = closed.count;
    let parts = closed.parts;
    for i in 0..count {
        list[i] = parts.entry(i);
    }
    closed.answer
}
