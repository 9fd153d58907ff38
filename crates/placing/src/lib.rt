// Admitting a job on a board in arrays, in place.
#![tactic(auto)]

ghost use Rattle.std.specs.Prelude.{◌≡◌};
ghost use Rattle.packing.specs.Inner.Packed.{board_of};
ghost use Rattle.admitting.specs.Inner.InLimits.{admitted_in_limits};
ghost use Rattle.admitting.specs.Inner.Answer.{admitted_answer};

use board::{Laxity, Refusal, Slot};
use packing::Packed;

// `admit_in_limits` on a board in arrays.
pub fn admit_packed(
    b: &mut Packed,
    ticket: u32,
    laxity: Laxity,
    grade: u32,
) -> Result<Slot, Refusal>
    ensures { admitted_answer result (board_of b.new) ≡ admitted_in_limits (board_of b.old) ticket laxity.0 grade }
{
    admitting::admit_on(b, ticket, laxity, grade)
}
