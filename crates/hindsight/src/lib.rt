// The best day in hindsight: the call, over the list that is not refused (listed), the search for a slot (search), the choice of the jobs (choice) and their
// layout (layout).
#![tactic(auto)]

ghost use Rattle.std.specs.Prelude.{◌≡◌};
ghost use Rattle.matching.specs.Windows.{is_window};
ghost use Rattle.matching.specs.Answer.{best_day};
ghost use Rattle.hindsight.specs.Inner.Answer.{answer_of};

use board::Refusal;
use listed::Listed;
use matching::{BestDay, Jobs, Window};

mod choice;
mod layout;
mod listed;
mod search;

// A first and a last slot from 1 to 64, the last not before the first. `Window` is declared in `matching`, so this is no method.
#[tactic(auto, unfolding(matching::specs::Windows::is_window))]
pub fn is_window(w: Window) -> bool
    ensures { result ≡ is_window w }
{
    1 <= w.first.0 && w.first.0 <= w.last.0 && w.last.0 as usize <= Jobs::SLOTS
}

// The slots that `lay_out` gives, or why the list is refused.
fn plan(d: &Jobs) -> Result<[u32; Jobs::MOST], Refusal>
    ensures { answer_of result ≡ best_day d.now }
{
    let listed = Listed::try_from(d)?;
    let chosen = listed.choose();
    Ok(listed.lay_out(chosen))
}

// The best day in hindsight: the slot of each job, or the number of a refusal. C calls it, so the answer is no `Result`.
pub fn find_best_day(d: Jobs) -> BestDay
    ensures { result ≡ best_day d }
{
    match plan(&d) {
        Ok(slots) => BestDay { refusal: 0, slots },
        Err(refusal) => BestDay {
            refusal: refusal.number(),
            slots: [0; Jobs::MOST],
        },
    }
}
