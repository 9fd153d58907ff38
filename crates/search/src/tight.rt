// The tight laxity from counts: of the laxities that a job has, the least whose excess is smallest, and that excess.
ghost use Rattle.std.specs.Prelude.{◌≡◌, ◌+◌, ◌^◌, ◌<◌};
ghost use Rattle.board.specs.Limits.{deepest, longest_laxity};
ghost use Rattle.search.specs.Inner.Answers.{TightOf, best_with};

use crate::columns;
use crate::prefix::Prefix;
use board::{Board, Laxity};
use counts::{CELLS, LAXITIES};
use smallest::Best;

// The best once the laxity k + 1 is looked at, which `here` jobs have; `before` jobs have a lesser one. The excess of a laxity is the laxity less the number
// of jobs with that laxity or less. It may be below zero.
#[tactic(auto, unfolding(board::specs::Limits::longest_laxity))]
pub(crate) fn better(best: Option<Best>, before: u32, here: u32, k: usize) -> Option<Best>
    requires { (k < longest_laxity) × (before + here < 2 ^ 31) }
    ensures { result ≡ best_with best before here k }
{
    if here == 0 {
        return best;
    }
    let laxity = Laxity(k as u32 + 1);
    let excess = laxity.0 as i32 - (before + here) as i32;
    if smallest::is_better(excess, best) {
        return Some(Best { excess, laxity });
    }
    best
}

// The tight laxity of all jobs, and its excess: one column of counts after the other, each as wide as the greatest depth has grades.
#[tactic(auto, unfolding(board::specs::Limits::longest_laxity, board::specs::Limits::deepest))]
pub(crate) fn tight(counts: &[u16; CELLS]) -> Option<Best>
    ensures { TightOf counts.now 0 deepest result }
{
    let all = Prefix {
        bits: 0,
        left: Board::DEEPEST as u8,
    };
    let mut best = None;
    let mut within: u32 = 0;
    for k in 0..LAXITIES {
        let here = columns::column_of(counts, all, k);
        best = better(best, within, here, k);
        within += here;
    }
    best
}
