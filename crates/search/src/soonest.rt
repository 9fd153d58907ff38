// The soonest job of a grade: 'the least last slot, on ties the lowest ticket'. The least laxity comes from the counts, and then all jobs of this last slot
// and grade have one key, of which `smallest::lowest_ticket` finds the lowest ticket.
ghost use Rattle.board.specs.Limits.{deepest};
ghost use Rattle.search.specs.Inner.Start.{Start};
ghost use Rattle.search.specs.Inner.Answers.{LeastOf, laxity_in};

use crate::columns;
use crate::prefix::Prefix;
use board::Laxity;
use counts::{CELLS, LAXITIES};

// The least laxity that a job of this grade has, if there is one.
#[tactic(auto, unfolding(board::specs::Limits::longest_laxity, board::specs::Limits::deepest))]
pub(crate) fn least_laxity(counts: &[u16; CELLS], grade: u8) -> Option<Laxity>
    requires { Start deepest grade 0 }
    ensures { LeastOf counts.now grade (laxity_in result) }
{
    let prefix = Prefix {
        bits: grade,
        left: 0,
    };
    for k in 0..LAXITIES {
        if columns::column_of(counts, prefix, k) != 0 {
            return Some(Laxity(k as u32 + 1));
        }
    }
    None
}
