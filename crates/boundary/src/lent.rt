// A tally that the caller lends.
ghost use Rattle.std.specs.Prelude.{◌≡◌};
ghost use Rattle.board.specs.Tally.{counted};

use board::Tally;

// Takes in one event, as `oven_count` does, and answers its number. By 01's form it is 'one thin function that calls the by-value counter'.
#[unsafe(no_mangle)]
pub extern "C" fn oven_note(t: &mut Tally, kind: u32, grade: u32) -> u8
    ensures { record { refusal = result; tally = t.new } ≡ counted t.old kind grade }
{
    let c = crate::oven_count(*t, kind, grade);
    *t = c.tally;
    c.refusal
}
