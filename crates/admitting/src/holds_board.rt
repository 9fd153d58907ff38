// A value that holds a board, whatever its form: what admitting asks of it.
#![tactic(auto, unfolding(board::specs::Limits::places_held, packing::specs::Inner::Packed::board_in))]

ghost use Rattle.std.specs.Prelude.{◌≡◌, refl};
ghost use Rattle.board.specs.declared.Board.{Board};
ghost use Rattle.board.specs.declared.Place.{Place};
ghost use Rattle.packing.specs.Inner.Packed.{packed, board_of};
ghost use Rattle.admitting.specs.Inner.Placed.{head_of, admitted_at, Placeable, with_place_if_free};
ghost use Rattle.admitting.specs.Inner.Whole.{held_whole};

use board::{Board, Place, Slot};
use packing::{Head, Packed};

pub trait HoldsBoard {
    // The board that the value holds.
    ghost board: { Self → Board };

    // A job as the value can hold it.
    ghost as_held: { Place → Place };

    // What the board holds beside its places.
    fn head(&self) -> Head
        ensures { result ≡ head_of (board self.now) };

    // The slot that the job in a place was admitted in, 0 past the places.
    fn admitted_at(&self, at: usize) -> Slot
        ensures { result ≡ admitted_at (board self.now) at };

    // Puts a job in the first free place, where there is one. Its ticket is then the highest. A board without a free place stays as it was.
    fn put(&mut self, job: Place)
        ensures { board self.new ≡ with_place_if_free (board self.old) (as_held job) };

    // A job that a sound board can have is held as it is.
    ghost holds_whole: { (b : Board) (job : Place) → Placeable b job → as_held job ≡ job };
}

impl HoldsBoard for Board {
    ghost board = { λ b. b };

    ghost as_held = { λ job. job };

    ghost holds_whole = { λ b job p. refl };

    #[inline]
    fn head(&self) -> Head {
        Head {
            depth: self.depth,
            slot: self.slot,
            highest: self.highest,
            count: self.count,
        }
    }

    #[inline]
    fn admitted_at(&self, at: usize) -> Slot {
        match self.places.get(at) {
            Some(place) => place.admitted,
            None => Slot(0),
        }
    }

    #[inline]
    fn put(&mut self, job: Place) {
        if Board::PLACES <= self.count {
            return;
        }
        self.places[self.count] = job;
        self.count += 1;
        self.highest = job.ticket;
    }
}

impl HoldsBoard for Packed {
    ghost board = { board_of };

    ghost as_held = { packed };

    ghost holds_whole = { held_whole };

    #[inline]
    fn head(&self) -> Head {
        self.head
    }

    #[inline]
    fn admitted_at(&self, at: usize) -> Slot {
        if at < self.head.count && at < Board::PLACES {
            Slot(self.admitted[at])
        } else {
            Slot(0)
        }
    }

    #[inline]
    fn put(&mut self, job: Place) {
        let at = self.head.count;
        if Board::PLACES <= at {
            return;
        }
        self.keys[at] = packing::key(job.last, job.grade);
        self.tickets[at] = job.ticket;
        self.admitted[at] = job.admitted.0;
        let head = &mut self.head;
        head.count = at + 1;
        head.highest = job.ticket;
    }
}
