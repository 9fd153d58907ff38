// What can still be promised: 02's rows 2 and 3 in order, then the least laxity that one job more can have.
#![tactic(auto)]

ghost use Rattle.std.specs.Prelude.{◌≡◌, ◌≤◌, IfOk, IfSome};
ghost use Rattle.board.specs.Promise.{promised_refused, promised};
ghost use Rattle.board.specs.Refusals.{number_of};
ghost use Rattle.promising.specs.Inner.Seen.{PromisedOf};

use board::{Board, Laxity, Promised, Refusal};
use packing::Packed;

// What can be promised beside the jobs that are seen of the board that arrays hold, sound or not: the least laxity, if there is one. On a sound board these
// are all.
pub fn promise_packed(b: &Packed) -> Result<Option<Laxity>, Refusal>
    ensures promised { PromisedOf b.now.head b.now.keys result }
    ensures one_slot { IfOk result (λ laxity. IfSome laxity (λ some. 1 ≤ some.0)) }
{
    if b.head.slot.0 == Board::LAST_SLOT + 1 {
        return Err(Refusal::BookEnded);
    }
    Ok(search::promise(b))
}

// The answer of a refused call, in the numbers of the C interface: that of the refusal, and 0 for no laxity.
fn refused(refusal: Refusal) -> Promised
    ensures { result ≡ promised_refused (number_of refusal) }
{
    Promised {
        refusal: refusal.number(),
        laxity: Laxity(0),
    }
}

// What can be promised: the least laxity from 1 to the longest such that some plan bakes one job more of it and all on the board, 0 for none.
pub fn promise(b: Board) -> Promised
    ensures { result ≡ promised b }
{
    if !soundness::is_sound(b) {
        return refused(Refusal::NotSound);
    }
    match promise_packed(&packing::unpack(&b)) {
        Ok(laxity) => Promised {
            refusal: 0,
            laxity: laxity.unwrap_or(Laxity(0)),
        },
        Err(refusal) => refused(refusal),
    }
}
