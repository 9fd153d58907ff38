// The kinds of the tally's events.
#![tactic(auto, unfolding(crate::specs::Events::admitted_kind, crate::specs::Events::baked_kind, crate::specs::Events::given_up_kind, crate::specs::Events::withdrawn_kind, crate::specs::Tally::tally_kinds))]

ghost use Rattle.std.specs.Prelude.{◌≡◌};
ghost use Rattle.board.specs.Kinds.{kind_number, KindOf};

use crate::refusal::Refusal;

// A kind of event. Its number is the variant's.
#[derive(Clone, Copy, Debug, PartialEq, Eq)]
pub enum Kind {
    Admitted,
    Baked,
    GivenUp,
    Withdrawn,
}

impl Kind {
    // 'kind 0 admitted, 1 baked, 2 given up'; 02, Seven: 'kind 3, withdrawn'.
    pub fn number(self) -> u32
        ensures { result ≡ kind_number self }
    {
        self as u32
    }
}

impl TryFrom<u32> for Kind {
    type Error = Refusal;

    ghost try_from_gives = { KindOf };

    fn try_from(number: u32) -> Result<Kind, Refusal> {
        match number {
            0 => Ok(Kind::Admitted),
            1 => Ok(Kind::Baked),
            2 => Ok(Kind::GivenUp),
            3 => Ok(Kind::Withdrawn),
            _ => Err(Refusal::NoSuchEvent),
        }
    }
}
