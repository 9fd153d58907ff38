// The search for the job that a slot bakes: one walk along the keys counts the board's jobs by laxity and grade; from these counts alone comes the smallest
// excess of all jobs, which is the shortfall, the grade, down its bits, and the least laxity of that grade's jobs; then the lowest ticket of those with it.
// It takes any board, and goes by the jobs that it sees there; on a sound board these are all.
#![tactic(auto)]

ghost use Rattle.std.specs.Prelude.{◌≤◌, IfSome};
ghost use Rattle.board.specs.Limits.{deepest};
ghost use Rattle.counts.specs.Inner.Packed.{CountsPacked};
ghost use Rattle.search.specs.Inner.Answers.{TightOf, laxity_in};
ghost use Rattle.search.specs.Inner.Found.{ChosenPacked, BakedPacked, PromisedPacked};

use board::{Laxity, Slot};
use counts::CELLS;
use packing::Packed;
use prefix::Prefix;
use smallest::Best;

mod columns;
mod descent;
mod prefix;
mod room;
mod soonest;
mod tight;

// A job that a slot bakes.
#[derive(Clone, Copy)]
pub struct Chosen {
    pub ticket: u32,
    pub grade: u8,
    pub last: Slot,
}

// What the search hands up: the job that a slot bakes, if one is seen; the shortfall of all jobs seen; and the counts by which both were found.
#[derive(Clone, Copy)]
pub struct Baked {
    pub job: Option<Chosen>,
    pub shortfall: u32,
    pub counts: [u16; CELLS],
}

// The job that the slot bakes, by the counts of the jobs seen; `all` says whether there are any. Of the grade that the search ends at it is the soonest job, which
// is in the no-regret set, since the tight laxity of the grade's jobs is one that some of them has, and no laxity is less than that of the soonest.
fn choose(b: &Packed, counts: &[u16; CELLS], all: Option<Best>) -> Option<Chosen>
    requires counted { CountsPacked b.now.head b.now.keys counts.now }
    requires tight { TightOf counts.now 0 deepest all }
    ensures { ChosenPacked b.now.head b.now.keys b.now.tickets result }
{
    if all.is_none() {
        return None;
    }
    let prefix = Prefix {
        bits: 0,
        left: b.head.depth,
    };
    let grade = descent::descend(counts, prefix);
    let laxity = soonest::least_laxity(counts, grade)?;
    let last = Slot(b.head.slot.0 + laxity.0 - 1);
    let ticket = smallest::lowest_ticket(b, packing::key(last, grade));
    Some(Chosen {
        ticket,
        grade,
        last,
    })
}

// The job that the slot bakes of the jobs seen, with their shortfall, which is by the smallest excess of all jobs, and their counts.
pub fn bake(b: &Packed) -> Baked
    ensures { BakedPacked b.now.head b.now.keys b.now.tickets result }
{
    let counts = counts::counts_of(b);
    let all = tight::tight(&counts);
    let job = choose(b, &counts, all);
    let shortfall = smallest::shortfall_of(all);
    Baked {
        job,
        shortfall,
        counts,
    }
}

// What can still be promised: the least laxity that one job more can have and be baked with all jobs seen, if there is one.
pub fn promise(b: &Packed) -> Option<Laxity>
    ensures least { PromisedPacked b.now.head b.now.keys (laxity_in result) }
    ensures one_slot { IfSome result (λ laxity. 1 ≤ laxity.0) }
{
    let counts = counts::counts_of(b);
    room::after_full(&counts)
}
