// The tally: a count for each kind of event and each grade, kept by the caller.
#![tactic(auto)]

ghost use Rattle.std.specs.Prelude.{◌≡◌};
ghost use Rattle.board.specs.Kinds.{kind_number};
ghost use Rattle.board.specs.Refusals.{refusal_number};
ghost use Rattle.board.specs.Tally.{zero_tally, counted};

use board::{Counted, Kind, Refusal, Tally};

// A new tally.
#[tactic(auto, unfolding(board::specs::Tally::tally_kinds, board::specs::Tally::tally_grades, board::specs::Tally::zero_tally))]
pub fn zero() -> Tally
    ensures { result ≡ zero_tally }
{
    Tally {
        counts: [0; Tally::COUNTS],
    }
}

// Takes in one event of this kind, with a grade. Rows 9 and 10: the tally is then as before.
#[tactic(auto, using(board::proofs::Tallies::Kinds::kind_below), unfolding(board::specs::Tally::tally_kinds))]
pub fn take_in(tally: &mut Tally, kind: Kind, grade: u32) -> Result<(), Refusal>
    ensures { record { refusal = refusal_number result; tally = tally.new } ≡ counted tally.old (kind_number kind) grade }
{
    if Tally::GRADES <= grade as usize {
        return Err(Refusal::NoSuchEvent);
    }
    let at = kind.number() as usize * Tally::GRADES + grade as usize;
    let n = tally.counts[at];
    if Tally::MOST <= n {
        return Err(Refusal::CountFull);
    }
    tally.counts[at] = n + 1;
    Ok(())
}

// The same by the number of the kind: 0 admitted, 1 baked, 2 given up, 3 withdrawn. A number, as the C interface hands it over (`oven_count`).
pub fn count_into(tally: &mut Tally, kind: u32, grade: u32) -> Result<(), Refusal>
    ensures { record { refusal = refusal_number result; tally = tally.new } ≡ counted tally.old kind grade }
{
    take_in(tally, Kind::try_from(kind)?, grade)
}

// The same of a tally by value.
pub fn count_event(t: Tally, kind: u32, grade: u32) -> Counted
    ensures { result ≡ counted t kind grade }
{
    let mut tally = t;
    let refusal = match count_into(&mut tally, kind, grade) {
        Ok(()) => 0,
        Err(refusal) => refusal.number(),
    };
    Counted { refusal, tally }
}
