// Sums of counts: the jobs of one laxity whose grade starts in some way.
ghost use Rattle.std.specs.Prelude.{◌≡◌, ◌+◌, ◌^◌, ◌≤◌, ◌<◌};
ghost use Rattle.board.specs.Limits.{deepest, longest_laxity};
ghost use Rattle.search.specs.Inner.Counts.{column};

use crate::prefix::Prefix;
use board::Tally;
use counts::CELLS;

// The jobs of laxity k + 1 whose grade starts so: 2 ^ left grades do. A type for k would be no plainer: it is the counter of each loop that calls this.
pub(crate) fn column_of(counts: &[u16; CELLS], prefix: Prefix, k: usize) -> u32
    requires { k < longest_laxity }
    ensures { (result ≡ column counts.now prefix.bits prefix.left k) × (result ≤ 2 ^ (16 + deepest)) }
{
    let n = 1usize << prefix.left;
    let first = k * Tally::GRADES + (prefix.bits as usize) * n;
    let mut total: u32 = 0;
    for count in &counts[first..first + n] {
        total += *count as u32;
    }
    total
}
