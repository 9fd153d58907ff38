// How a grade starts.
ghost use Rattle.std.specs.Prelude.{◌≡◌, ◌+◌, ◌-◌, ◌*◌, ◌≤◌};
ghost use Rattle.board.specs.Limits.{deepest};
ghost use Rattle.search.specs.Inner.Start.{Start};

// The first bits of a grade, as a number, and how many bits are left: the grades that start so are the 2 ^ left from bits * 2 ^ left on. All of them are
// below (bits + 1) * 2 ^ left, which is at most 2 ^ DEEPEST.
#[derive(Clone, Copy)]
pub(crate) struct Prefix {
    pub(crate) bits: u8,
    pub(crate) left: u8,
    ghost in_range: { Start deepest bits left },
}

impl Prefix {
    // One bit more.
    #[tactic(auto, unfolding(board::specs::Limits::deepest))]
    pub(crate) fn with(self, bit: u8) -> Prefix
        requires { (1 ≤ self.left) × (bit ≤ 1) }
        ensures bits { result.bits ≡ self.bits * 2 + bit }
        ensures left { result.left ≡ self.left - 1 }
    {
        Prefix {
            bits: self.bits * 2 + bit,
            left: self.left - 1,
        }
    }
}
