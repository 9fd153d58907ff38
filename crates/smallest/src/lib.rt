// The smallest excess found so far, and the shortfall from it; and the lowest ticket of the jobs with one key.
#![tactic(auto)]

ghost use Rattle.std.specs.Prelude.{◌≡◌};
ghost use Rattle.rule.specs.Shortfall.{below_zero};
ghost use Rattle.packing.specs.Inner.Packed.{in_use};
ghost use Rattle.smallest.specs.Inner.Excess.{smallest_in, improves};
ghost use Rattle.smallest.specs.Inner.Lowest.{LowestOf};

use board::{Board, Laxity};
use packing::Packed;

// The smallest excess of some jobs, and the least laxity that has it.
#[derive(Clone, Copy)]
pub struct Best {
    pub excess: i32,
    pub laxity: Laxity,
}

// Whether the excess `x` is the first, or smaller than the best so far.
pub fn is_better(x: i32, best: Option<Best>) -> bool
    ensures { result ≡ improves x best }
{
    match best {
        Some(b) => x < b.excess,
        None => true,
    }
}

// The shortfall of jobs whose smallest excess is this one: how far it is below zero. Where there are no jobs it is 0.
pub fn shortfall_of(best: Option<Best>) -> u32
    ensures { result ≡ below_zero (smallest_in best) }
{
    match best {
        Some(b) => b.excess.min(0).unsigned_abs(),
        None => 0,
    }
}

// The lowest ticket of the jobs with this key, if there is one. A number and no Option, which was tried and takes four times as long: the walk then has a
// branch for each place. Where there is none it is u32::MAX, which a job can have too.
pub fn lowest_ticket(b: &Packed, key: u32) -> u32
    ensures { LowestOf (in_use b.now.head.count) b.now.keys b.now.tickets key result }
{
    let mut lowest = u32::MAX;
    for (i, k) in b.keys[..b.head.count.min(Board::PLACES)].iter().enumerate() {
        let ticket = b.tickets[i];
        let other = if *k == key { ticket } else { u32::MAX };
        lowest = lowest.min(other);
    }
    lowest
}
