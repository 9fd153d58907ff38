// The best day in hindsight (02, Ten): jobs with windows of slots, best first, the plan that bakes as many of the first m as any plan can, for every m at
// once, and what the call answers. The types are here, the definitions in specs/, their theory in proofs/.
#![tactic(auto)]

ghost use Rattle.std.specs.Prelude.{◌≡◌};
ghost use Rattle.matching.specs.Windows.{most_jobs, slot_count};

use board::Slot;

// The slots in which a job can be baked, from the first to the last.
#[repr(C)]
#[derive(Clone, Copy)]
pub struct Window {
    pub first: Slot,
    pub last: Slot,
}

// The windows of the jobs, best first, in the first `count` places. C passes it, so the count stands beside the array.
#[repr(C)]
#[derive(Clone, Copy)]
pub struct Jobs {
    pub count: usize,
    pub windows: [Window; Jobs::MOST],
}

impl Jobs {
    // Most jobs.
    pub const MOST: usize = 64;

    // Slots.
    pub const SLOTS: usize = 64;
}

// A layout so far: the jobs that still wait, and the slot of each job, 0 for none. `laid_to` and `give` of specs/ are of these two lists.
#[derive(Clone, Copy)]
pub struct Laid {
    pub waiting: [bool; Jobs::MOST],
    pub slots: [u32; Jobs::MOST],
}

// What the call answers: the number of a refusal, or 0, and the slot of each job in list order, 0 for none. C takes it, so it is no `Result`.
#[repr(C)]
#[derive(Clone, Copy)]
pub struct BestDay {
    pub refusal: u8,
    pub slots: [u32; Jobs::MOST],
}

// The limits of the definitions are the constants of `Jobs`.
fn limits()
    ensures most { Jobs.MOST ≡ most_jobs }
    ensures slots { Jobs.SLOTS ≡ slot_count }
{}
