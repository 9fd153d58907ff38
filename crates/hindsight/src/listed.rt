// A list of jobs that is not refused: at most 64, each with a window. The code behind `find_best_day` takes no other.
ghost use Rattle.std.specs.Prelude.{◌≡◌, IfOk};
ghost use Rattle.lists.specs.Select.{every};
ghost use Rattle.board.specs.Rows.{first_given};
ghost use Rattle.board.specs.Refusals.{refusal_number};
ghost use Rattle.matching.specs.Windows.{is_window, windows_of};
ghost use Rattle.matching.specs.Answer.{best_day_rows};
ghost use Rattle.hindsight.specs.Inner.Accepted.{Accepted};

use crate::is_window;
use board::Refusal;
use matching::{Jobs, Window};

// The windows of the jobs, best first.
#[derive(Clone, Copy)]
pub(crate) struct Listed<'a> {
    pub windows: &'a [Window],
    ghost accepted: { Accepted windows.now },
}

// Whether every job has a window.
fn all_windows(windows: &[Window]) -> bool
    ensures { result ≡ every is_window windows.now }
{
    windows.iter().all(|w| is_window(*w))
}

impl<'a> TryFrom<&'a Jobs> for Listed<'a> {
    type Error = Refusal;

    // The list, or why it is refused.
    ghost try_from_gives = { λ d r. (refusal_number r ≡ first_given (best_day_rows d.now)) × IfOk r (λ l. l.windows.now ≡ windows_of d.now) };

    #[tactic(auto, using(crate::proofs::Answering::rows_many, crate::proofs::Answering::rows_no_window, crate::proofs::Answering::rows_none), unfolding(matching::specs::Windows::windows_of))]
    fn try_from(d: &'a Jobs) -> Result<Self, Refusal> {
        if Jobs::MOST < d.count {
            return Err(Refusal::TooManyJobs);
        }
        let windows = &d.windows[..d.count];
        if !all_windows(windows) {
            return Err(Refusal::NoWindow);
        }
        Ok(Listed { windows })
    }
}
