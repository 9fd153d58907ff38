// The board: its types and its four limits. What each call answers and leaves behind is defined in specs/.
#![tactic(auto)]

ghost use Rattle.std.specs.Prelude.{◌≡◌, ◌^◌, min};
ghost use Rattle.board.specs.Limits.{longest_laxity, most_in_slot, places_held, last_slot, deepest};
ghost use Rattle.board.specs.Held.{blank};
ghost use Rattle.board.specs.Open.{empty_board, opened_as, opened};
ghost use Rattle.board.specs.Tally.{tally_kinds, tally_grades, tally_most};

pub mod kind;
pub mod refusal;

pub use kind::Kind;
pub use refusal::Refusal;

// A number of slots counted from the present one: 01's wait, 000's laxity.
#[repr(C)]
#[derive(Clone, Copy, PartialEq, Eq)]
pub struct Laxity(pub u32);

// The number of a slot in the day book. Never compared with a laxity.
#[repr(C)]
#[derive(Clone, Copy, PartialEq, Eq)]
pub struct Slot(pub u32);

// A place of the board: a job, which 01 calls a rack, or all zero.
#[repr(C)]
#[derive(Clone, Copy, PartialEq, Eq)]
pub struct Place {
    pub ticket: u32,
    pub admitted: Slot,
    pub last: Slot,
    pub grade: u8,
}

impl Place {
    // A place without a job.
    pub fn blank() -> Place
        ensures { result ≡ blank }
    {
        Place {
            ticket: 0,
            admitted: Slot(0),
            last: Slot(0),
            grade: 0,
        }
    }
}

// The jobs that can still be baked stand in the first `count` places, by rising ticket.
#[repr(C)]
#[derive(Clone, Copy)]
pub struct Board {
    pub depth: u8,
    pub slot: Slot,
    pub highest: u32,
    pub count: usize,
    pub places: [Place; Board::PLACES],
}

impl Board {
    // Longest wait.
    pub const LONGEST_LAXITY: u32 = 24;

    // Most racks admitted in a slot.
    pub const MOST_IN_SLOT: usize = 8;

    // Most racks held.
    pub const PLACES: usize = 192;

    // Last slot of a book.
    pub const LAST_SLOT: u32 = 1_000_000;

    // Greatest depth.
    pub const DEEPEST: u32 = 3;

    // The number of grades of a depth: 2^D. A depth above the greatest counts as the greatest.
    pub fn grade_count(depth: u8) -> u32
        ensures { result ≡ 2 ^ min depth deepest }
    {
        if (depth as u32) < Board::DEEPEST {
            return 1u32 << depth;
        }
        1u32 << Board::DEEPEST
    }

    // A board all zero, of no depth, slot or job.
    fn zero() -> Board
        ensures { result ≡ empty_board 0 0 0 }
    {
        Board {
            depth: 0,
            slot: Slot(0),
            highest: 0,
            count: 0,
            places: [Place::blank(); Board::PLACES],
        }
    }

    // A new board of this depth; refused where the depth is above the greatest.
    pub fn new(depth: u32) -> Result<Board, Refusal>
        ensures { opened_as result ≡ opened depth }
    {
        if Board::DEEPEST < depth {
            return Err(Refusal::TooDeep);
        }
        let mut board = Board::zero();
        board.depth = depth as u8;
        board.slot.0 = 1;
        Ok(board)
    }

    // The same as C has it: refusal 1 and a board all zero where the depth is above the greatest.
    pub fn open(depth: u32) -> Opened
        ensures { result ≡ opened depth }
    {
        match Board::new(depth) {
            Ok(board) => Opened { refusal: 0, board },
            Err(refusal) => Opened {
                refusal: refusal.number(),
                board: Board::zero(),
            },
        }
    }
}

// What opening answers. Every answer here is a struct of C: 01's number of a refusal, or 0, stands beside the values.
#[repr(C)]
#[derive(Clone, Copy)]
pub struct Opened {
    pub refusal: u8,
    pub board: Board,
}

// What admitting answers: the job's last slot.
#[repr(C)]
#[derive(Clone, Copy)]
pub struct Admitted {
    pub refusal: u8,
    pub last: Slot,
    pub board: Board,
}

// What closing answers: the job baked, ticket 0 for 'empty', how many jobs are given up, and the shortfall of the board before the bake.
#[repr(C)]
#[derive(Clone, Copy)]
pub struct Closed {
    pub refusal: u8,
    pub ticket: u32,
    pub grade: u8,
    pub listed: u32,
    pub shortfall: u32,
    pub board: Board,
}

// What can still be promised: the least laxity of one job more, 0 for none.
#[repr(C)]
#[derive(Clone, Copy)]
pub struct Promised {
    pub refusal: u8,
    pub laxity: Laxity,
}

// What withdrawing answers: the grade of the job taken off.
#[repr(C)]
#[derive(Clone, Copy)]
pub struct Withdrawn {
    pub refusal: u8,
    pub grade: u8,
    pub board: Board,
}

// A count for each kind of event and each grade, at kind * Tally::GRADES + grade.
#[repr(C)]
#[derive(Clone, Copy)]
pub struct Tally {
    pub counts: [u32; Tally::COUNTS],
}

impl Tally {
    // How many kinds of events there are.
    pub const KINDS: usize = 4;

    // Grades of the greatest depth.
    pub const GRADES: usize = 1 << Board::DEEPEST;

    pub const COUNTS: usize = Tally::KINDS * Tally::GRADES;

    // No count passes it: the most racks that a book can have.
    pub const MOST: u32 = Board::MOST_IN_SLOT as u32 * Board::LAST_SLOT;
}

// What the tally answers to an event.
#[repr(C)]
#[derive(Clone, Copy)]
pub struct Counted {
    pub refusal: u8,
    pub tally: Tally,
}

// The limits of the definitions are the board's constants.
#[tactic(auto, unfolding(crate::specs::Limits::longest_laxity, crate::specs::Limits::most_in_slot, crate::specs::Limits::places_held, crate::specs::Limits::last_slot, crate::specs::Limits::deepest, crate::specs::Tally::tally_kinds, crate::specs::Tally::tally_grades, crate::specs::Tally::tally_most))]
fn limits()
    ensures longest_laxity { Board.LONGEST_LAXITY ≡ longest_laxity }
    ensures most_in_slot { Board.MOST_IN_SLOT ≡ most_in_slot }
    ensures places { Board.PLACES ≡ places_held }
    ensures last_slot { Board.LAST_SLOT ≡ last_slot }
    ensures deepest { Board.DEEPEST ≡ deepest }
    ensures kinds { Tally.KINDS ≡ tally_kinds }
    ensures grades { Tally.GRADES ≡ tally_grades }
    ensures most { Tally.MOST ≡ tally_most }
{}
