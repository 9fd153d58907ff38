// The search for a slot for one job more. A job that finds its slots taken asks a holder to move, and the holder looks in turn: `seek` and `move_holder`
// call each other. Each slot is visited once, so the unvisited slots fall. The place k of an array is the slot k + 1.
ghost use Rattle.std.specs.Prelude.{◌≡◌, false, replicate};
ghost use Rattle.matching.specs.Windows.{slot_count};
ghost use Rattle.hindsight.specs.Inner.Search.{Ready, ToMove, Sought, Moved};

use crate::listed::Listed;
use matching::Jobs;

// A search: the slots visited, and the job that holds each slot. Each search begins with no slot visited and the holders of the one before, so the two are
// apart.
#[derive(Drop)]
pub(crate) struct Trail {
    pub visited: [bool; Jobs::SLOTS],
    pub holders: [Option<u8>; Jobs::SLOTS],
}

impl Trail {
    // A search that begins: no slot is visited.
    pub fn begin(holders: [Option<u8>; Jobs::SLOTS]) -> Trail
        ensures { result ≡ record { visited = replicate slot_count false; holders = holders } }
    {
        Trail {
            visited: [false; Jobs::SLOTS],
            holders,
        }
    }
}

impl Listed<'_> {
    // A job seeks a slot: of its window, the first unvisited one that is free or whose holder can move. Whether it found one.
    #[cycle(move_holder_seek)]
    #[tactic(auto, using(crate::proofs::Searching::Listed::from_one, crate::proofs::Searching::Listed::to_end))]
    pub(crate) fn seek(&self, job: usize, trail: &mut Trail) -> bool
        requires { Ready self.now.windows.now job trail.old }
        ensures { Sought self.now.windows.now job trail.old trail.new result }
    {
        let w = self.windows[job];
        let first = (w.first.0 - 1) as usize;
        let last = w.last.0 as usize;
        for at in first..last {
            if !trail.visited[at] {
                trail.visited[at] = true;
                if self.move_holder(at, trail) {
                    trail.holders[at] = Some(job as u8);
                    return true;
                }
            }
        }
        false
    }

    // The holder of a visited slot moves: it seeks another one. A free slot has room.
    #[cycle(move_holder_seek)]
    fn move_holder(&self, at: usize, trail: &mut Trail) -> bool
        requires { ToMove self.now.windows.now at trail.old }
        ensures { Moved self.now.windows.now at trail.old trail.new result }
    {
        match trail.holders[at] {
            Some(holder) => self.seek(holder as usize, trail),
            None => true,
        }
    }
}
