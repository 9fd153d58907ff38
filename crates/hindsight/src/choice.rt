// The jobs that are baked: in list order, each that finds a slot beside those chosen before it.
ghost use Rattle.std.specs.Prelude.{◌≡◌};
ghost use Rattle.matching.specs.Choice.{chosen};

use crate::listed::Listed;
use crate::search::Trail;
use matching::Jobs;

impl Listed<'_> {
    // The jobs chosen.
    pub fn choose(&self) -> [bool; Jobs::MOST]
        ensures { result ≡ chosen self.now.windows.now }
    {
        let mut chosen = [false; Jobs::MOST];
        let mut holders = [None; Jobs::SLOTS];
        for i in 0..self.windows.len() {
            let mut trail = Trail::begin(holders);
            chosen[i] = self.seek(i, &mut trail);
            holders = trail.holders;
        }
        chosen
    }
}
