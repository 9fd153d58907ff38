// Whether a board is sound: its limits, then one walk along its jobs and one along the places past them. Tests are joined
// by `&` and not by `&&`: this runs at every public call, and the walks then have no branch to guess.
#![tactic(auto)]

ghost use Rattle.std.specs.Prelude.{◌≡◌, ◌≤◌};
ghost use Rattle.lists.specs.Select.{every};
ghost use Rattle.board.specs.Limits.{places_held, deepest};
ghost use Rattle.board.specs.Held.{used};
ghost use Rattle.board.specs.Sound.{is_blank, sound};
ghost use Rattle.soundness.specs.Inner.Walk.{in_limits, nothing_seen, sharing_with, is_short, seen_with, all_well};

use board::{Board, Place, Slot};

// The depth, the slot and the count are in their limits.
#[tactic(auto, unfolding(board::specs::Limits::places_held, board::specs::Limits::last_slot, board::specs::Limits::deepest, lists::specs::Select::every, crate::specs::Inner::Walk::limit_tests, crate::specs::Inner::Walk::in_limits))]
pub fn in_limits(depth: u8, slot: Slot, count: usize) -> bool
    ensures { result ≡ in_limits depth slot.0 count }
{
    ((depth as u32) <= Board::DEEPEST)
        & (1 <= slot.0)
        & (slot.0 <= Board::LAST_SLOT + 1)
        & (count <= Board::PLACES)
}

// From the admitted slot to the last a job has no more slots than the longest laxity. In 64 bits the sum cannot wrap.
#[tactic(auto, unfolding(board::specs::Limits::longest_laxity, crate::specs::Inner::Walk::is_short))]
fn is_short(x: Place) -> bool
    ensures { result ≡ is_short x }
{
    (x.last.0 as u64) < (x.admitted.0 as u64) + (Board::LONGEST_LAXITY as u64)
}

// What a walk has seen of the jobs so far: whether all is well, the last job's ticket and admitted slot, and how many
// jobs in a row, the last one included, share that slot.
#[derive(Clone, Copy)]
struct Seen {
    well: bool,
    ticket: u32,
    admitted: Slot,
    sharing: usize,
}

impl Seen {
    // Before the first job.
    #[tactic(auto, unfolding(crate::specs::Inner::Walk::nothing_seen))]
    fn nothing() -> Seen
        ensures { result ≡ nothing_seen }
    {
        Seen {
            well: true,
            ticket: 0,
            admitted: Slot(1),
            sharing: 0,
        }
    }

    // How many jobs in a row, the next one included, share its admitted slot.
    #[tactic(auto, unfolding(board::specs::Limits::places_held, crate::specs::Inner::Walk::sharing_with))]
    fn sharing_with(self, x: Place) -> usize
        requires { self.sharing ≤ places_held }
        ensures { result ≡ sharing_with self x }
    {
        if x.admitted == self.admitted {
            self.sharing + 1
        } else {
            1
        }
    }

    // With the next job.
    #[tactic(auto, unfolding(board::specs::Limits::most_in_slot, lists::specs::Select::every, crate::specs::Inner::Walk::next_tests, crate::specs::Inner::Walk::well_with, crate::specs::Inner::Walk::seen_with))]
    fn with(self, slot: Slot, grades: u32, x: Place) -> Seen
        requires { self.sharing ≤ places_held }
        ensures { result ≡ seen_with slot.0 grades self x }
    {
        let sharing = self.sharing_with(x);
        let well = self.well
            & (self.ticket < x.ticket)
            & (self.admitted.0 <= x.admitted.0)
            & (sharing <= Board::MOST_IN_SLOT)
            & (x.admitted.0 <= slot.0)
            & (slot.0 <= x.last.0)
            & is_short(x)
            & ((x.grade as u32) < grades);
        Seen {
            well,
            ticket: x.ticket,
            admitted: x.admitted,
            sharing,
        }
    }
}

// The jobs of a board that is in its limits are sound.
#[tactic(auto, unfolding(board::specs::Limits::places_held))]
fn jobs_sound(b: &Board) -> bool
    requires { (b.now.depth ≤ deepest) × (b.now.count ≤ places_held) }
    ensures { result ≡ all_well b.now nothing_seen (used b.now) }
{
    let grades = Board::grade_count(b.depth);
    let mut s = Seen::nothing();
    for x in &b.places[..b.count] {
        s = s.with(b.slot, grades, *x);
    }
    s.well & (s.ticket <= b.highest)
}

// The place is all zero. Field by field, as `x == Place::blank()` was tried and is slower: it branches at each field, and a
// board without jobs takes half as long again.
#[tactic(auto, unfolding(board::specs::Sound::is_blank, lists::specs::Select::every))]
fn is_blank(x: Place) -> bool
    ensures { result ≡ is_blank x }
{
    (x.ticket == 0) & (x.admitted.0 == 0) & (x.last.0 == 0) & (x.grade == 0)
}

// The places are blank. Not by `all`, which branches at each place.
fn all_blank(places: &[Place]) -> bool
    ensures { result ≡ every is_blank places.now }
{
    let mut blank = true;
    for x in places {
        blank &= is_blank(*x);
    }
    blank
}

// Whether a board is sound: 01's conditions, no more and no less.
#[tactic(auto, using(crate::proofs::Parts::within), unfolding(board::specs::Limits::places_held))]
pub fn is_sound(b: Board) -> bool
    ensures { result ≡ sound b }
{
    if !in_limits(b.depth, b.slot, b.count) {
        return false;
    }
    jobs_sound(&b) & all_blank(&b.places[b.count..])
}
