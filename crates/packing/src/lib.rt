// A board whose jobs lie in three arrays of numbers. A walk along the keys reads nothing else, since they lie together. The key of a job is its last slot and
// its grade in one number.
#![tactic(auto)]

ghost use Rattle.std.specs.Prelude.{◌≡◌};
ghost use Rattle.packing.specs.Inner.Packed.{key_of, place_of, board_of, packable};

use board::{Board, Place, Slot, Tally};

// What a board holds beside its places.
#[derive(Clone, Copy)]
pub struct Head {
    pub depth: u8,
    pub slot: Slot,
    pub highest: u32,
    pub count: usize,
}

// A board in arrays: the keys, tickets and admitted slots of its jobs are the first `count` of each. Structs in one list are the older form, `Board`, and slower:
// the search reads the keys alone (docs/DECISIONS.md, 110).
#[derive(Clone, Copy)]
pub struct Packed {
    pub head: Head,
    pub keys: [u32; Board::PLACES],
    pub tickets: [u32; Board::PLACES],
    pub admitted: [u32; Board::PLACES],
}

// Last slots that a key can hold.
pub const LAST_SLOTS: u32 = 1 << 29;

const GRADES: u32 = Tally::GRADES as u32;

// The key of a last slot and a grade, as far as it can hold them. No `From`, which would be no plainer: it takes a pair, and a key is no type of its own.
pub fn key(last: Slot, grade: u8) -> u32
    ensures { result ≡ key_of last.0 grade }
{
    last.0 % LAST_SLOTS * GRADES + (grade as u32) % GRADES
}

// The place of a job.
pub fn place(key: u32, ticket: u32, admitted: u32) -> Place
    ensures { result ≡ place_of key ticket admitted }
{
    Place {
        ticket,
        admitted: Slot(admitted),
        last: Slot(key / GRADES),
        grade: (key % GRADES) as u8,
    }
}

// A board put into arrays, as far as they can hold it; of a sound board that is all.
pub fn unpack(b: &Board) -> Packed
    ensures { board_of result ≡ packable b.now }
{
    let head = Head {
        depth: b.depth,
        slot: b.slot,
        highest: b.highest,
        count: b.count,
    };
    let mut packed = Packed {
        head,
        keys: [0; Board::PLACES],
        tickets: [0; Board::PLACES],
        admitted: [0; Board::PLACES],
    };
    for i in 0..b.count.min(Board::PLACES) {
        let p = b.places[i];
        packed.keys[i] = key(p.last, p.grade);
        packed.tickets[i] = p.ticket;
        packed.admitted[i] = p.admitted.0;
    }
    packed
}

// The board that the arrays hold.
pub fn pack(packed: &Packed) -> Board
    ensures { result ≡ board_of packed.now }
{
    let head = packed.head;
    let mut places = [Place::blank(); Board::PLACES];
    for i in 0..head.count.min(Board::PLACES) {
        places[i] = place(packed.keys[i], packed.tickets[i], packed.admitted[i]);
    }
    Board {
        depth: head.depth,
        slot: head.slot,
        highest: head.highest,
        count: head.count,
        places,
    }
}
