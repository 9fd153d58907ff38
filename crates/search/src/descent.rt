// The search by bits: 'The search goes down one bit at a time until D bits are fixed.'
ghost use Rattle.std.specs.Prelude.{◌≡◌, ◌&&◌, ◌+◌, ◌-◌, ◌*◌, ◌^◌, ◌≤◌, ◌<◌, ltb, eqb};
ghost use Rattle.board.specs.Limits.{longest_laxity};
ghost use Rattle.search.specs.Inner.Answers.{ZeroNext, NextStart, EndsAt, best_laxity};

use crate::prefix::Prefix;
use crate::{columns, tight};
use counts::{CELLS, LAXITIES};
use smallest::Best;

// Whether the laxity k + 1 is the best so far, and some of the jobs within it have 0 for their next bit.
#[tactic(auto, unfolding(board::specs::Limits::longest_laxity))]
fn zero_within(best: Option<Best>, k: usize, zeros: u32) -> bool
    requires { k < longest_laxity }
    ensures { result ≡ (eqb (best_laxity best) (k + 1) && ltb 0 zeros) }
{
    match best {
        Some(b) => b.laxity.0 == k as u32 + 1 && 0 < zeros,
        None => false,
    }
}

// Whether a job of the tight set of the jobs whose grade starts so has 0 for its next bit. The tight laxity is the best so far or a greater one, so the
// answer is known as soon as a laxity is the best and a job within it has that bit.
#[tactic(auto, unfolding(board::specs::Limits::longest_laxity, board::specs::Limits::deepest))]
fn zero_next(counts: &[u16; CELLS], prefix: Prefix) -> bool
    requires { 1 ≤ prefix.left }
    ensures { ZeroNext counts.now prefix.bits prefix.left result }
{
    let with_zero = prefix.with(0);
    let with_one = prefix.with(1);
    let mut best = None;
    let mut within: u32 = 0;
    let mut zeros: u32 = 0;
    for k in 0..LAXITIES {
        let zero = columns::column_of(counts, with_zero, k);
        let one = columns::column_of(counts, with_one, k);
        let here = zero + one;
        best = tight::better(best, within, here, k);
        zeros += zero;
        if zero_within(best, k, zeros) {
            return true;
        }
        within += here;
    }
    false
}

// The prefix with its next bit: 0 where a job of the tight set has it, otherwise 1.
#[tactic(auto, unfolding(board::specs::Limits::longest_laxity, board::specs::Limits::deepest))]
fn next_prefix(counts: &[u16; CELLS], prefix: Prefix) -> Prefix
    requires { 1 ≤ prefix.left }
    ensures next_bit { NextStart counts.now prefix.bits prefix.left result.bits }
    ensures left { result.left ≡ prefix.left - 1 }
    ensures within { (result.bits + 1) * 2 ^ result.left ≤ (prefix.bits + 1) * 2 ^ prefix.left }
{
    if zero_next(counts, prefix) {
        prefix.with(0)
    } else {
        prefix.with(1)
    }
}

// The grade that the search from a prefix ends at: it goes on with the next bit, and one bit fewer left.
pub(crate) fn descend(counts: &[u16; CELLS], prefix: Prefix) -> u8
    ensures { EndsAt counts.now prefix.bits prefix.left result }
{
    if prefix.left == 0 {
        return prefix.bits;
    }
    descend(counts, next_prefix(counts, prefix))
}
