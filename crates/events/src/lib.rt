// The events of a call, counted into a tally in place. One that is refused changes nothing.
#![tactic(auto)]

ghost use Rattle.std.specs.Prelude.{◌≡◌, [], ◌∷◌, map};
ghost use Rattle.board.specs.Events.{admitted_kind, given_up_kind, withdrawn_kind, event, baked_events, fed};
ghost use Rattle.board.specs.Kinds.{kind_number};

use board::{Kind, Tally};

// One event more, unless it is refused.
#[tactic(auto, unfolding(board::specs::Events::fed))]
fn feed(tally: &mut Tally, kind: Kind, grade: u32)
    ensures { tally.new ≡ fed tally.old (event (kind_number kind) grade ∷ []) }
{
    let _ = tally::take_in(tally, kind, grade);
}

// Counts a job admitted.
pub fn count_admitted(tally: &mut Tally, grade: u32)
    ensures { tally.new ≡ fed tally.old (event admitted_kind grade ∷ []) }
{
    feed(tally, Kind::Admitted, grade);
}

// Counts a job withdrawn.
pub fn count_withdrawn(tally: &mut Tally, grade: u8)
    ensures { tally.new ≡ fed tally.old (event withdrawn_kind grade ∷ []) }
{
    feed(tally, Kind::Withdrawn, u32::from(grade));
}

// Counts the job baked, if there is one. Ticket 0 is none, as in the C struct `Closed` and in `baked_events`.
#[tactic(auto, unfolding(board::specs::Events::baked_kind, board::specs::Events::baked_events, board::specs::Events::fed))]
pub fn count_baked(tally: &mut Tally, ticket: u32, grade: u8)
    ensures { tally.new ≡ fed tally.old (baked_events ticket grade) }
{
    if ticket != 0 {
        feed(tally, Kind::Baked, u32::from(grade));
    }
}

// Counts the jobs given up, by their grades.
pub fn count_given_up(tally: &mut Tally, grades: &[u8])
    ensures { tally.new ≡ fed tally.old (map (event given_up_kind) grades.now) }
{
    for grade in grades {
        feed(tally, Kind::GivenUp, u32::from(*grade));
    }
}
