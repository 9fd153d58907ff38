// Room for one job more, from counts.
ghost use Rattle.std.specs.Prelude.{◌≤◌, IfSome};
ghost use Rattle.search.specs.Inner.Answers.{PromiseFor, laxity_in};

use crate::columns;
use crate::prefix::Prefix;
use board::{Board, Laxity};
use counts::{CELLS, LAXITIES};

// The least laxity that one job more can have and be baked with all the others, if there is one. A laxity that as many jobs are within is full, and one that
// more are within is overfull: it is the one after the last full one, if that is not the longest and none is overfull.
#[tactic(auto, unfolding(board::specs::Limits::longest_laxity, board::specs::Limits::deepest))]
pub(crate) fn after_full(counts: &[u16; CELLS]) -> Option<Laxity>
    ensures least { PromiseFor counts.now (laxity_in result) }
    ensures one_slot { IfSome result (λ laxity. 1 ≤ laxity.0) }
{
    let all = Prefix {
        bits: 0,
        left: Board::DEEPEST as u8,
    };
    let mut full: u32 = 0;
    let mut within: u32 = 0;
    for k in 0..LAXITIES {
        within += columns::column_of(counts, all, k);
        let laxity = k as u32 + 1;
        if laxity < within {
            return None;
        }
        if within == laxity {
            full = laxity;
        }
    }
    if full == Board::LONGEST_LAXITY {
        return None;
    }
    Some(Laxity(full + 1))
}
