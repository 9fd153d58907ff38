// The layout of the chosen jobs, slot by slot: of those whose first slot has come, least last slot first, then earlier in the list.
ghost use Rattle.std.specs.Prelude.{◌≡◌, ◌<◌, length};
ghost use Rattle.std.specs.Option.{ForSome};
ghost use Rattle.matching.specs.Layout.{next_to, layout};
ghost use Rattle.hindsight.specs.Inner.Layout.{job_of, beats};

use crate::listed::Listed;
use matching::{Jobs, Laid, Window};

impl Listed<'_> {
    // Whether there is no best job so far, or the window's last slot is less than that job's.
    #[tactic(auto, unfolding(matching::specs::Windows::last_of, matching::specs::Windows::no_window))]
    fn beats(&self, w: &Window, best: Option<usize>) -> bool
        requires { ForSome best (λ b. b < length self.now.windows.now) }
        ensures { result ≡ beats self.now.windows.now w.now best }
    {
        best.is_none_or(|b| w.last.0 < self.windows[b].last.0)
    }

    // The job that gets a slot: of those that have come, the one with the least last slot, of several the earliest.
    fn next_job(&self, waiting: &[bool; Jobs::MOST], slot: u32) -> Option<usize>
        ensures in_list { ForSome result (λ i. i < length self.now.windows.now) }
        ensures next { result ≡ job_of (next_to self.now.windows.now waiting.now slot (length self.now.windows.now)) }
    {
        let mut best = None;
        for (i, w) in self.windows.iter().enumerate() {
            if waiting[i] && w.first.0 <= slot && self.beats(w, best) {
                best = Some(i);
            }
        }
        best
    }

    // The slot of each job, 0 for none, as in C's `BestDay` and in `layout` of matching's specs.
    pub fn lay_out(&self, chosen: [bool; Jobs::MOST]) -> [u32; Jobs::MOST]
        ensures { result ≡ layout self.now.windows.now chosen }
    {
        let mut laid = Laid {
            waiting: chosen,
            slots: [0; Jobs::MOST],
        };
        for slot in 1..=Jobs::SLOTS as u32 {
            if let Some(i) = self.next_job(&laid.waiting, slot) {
                laid.waiting[i] = false;
                laid.slots[i] = slot;
            }
        }
        laid.slots
    }
}
