// Bytes cut into lines of any length, of which so many bytes are kept that one too long is known.
#![tactic(auto)]

ghost use Rattle.std.specs.Prelude.{◌≡◌, ◌≤◌, min, length, replicate};
ghost use Rattle.lines.specs.Machine.{partial_room, extend};
ghost use Rattle.cutting.specs.Cut.{partial_bytes, extend_all, CutFrom};

// The bytes of a line so far, as many as there is room for: the first `len`.
// Not a type that rules out a greater `len`: what may not change, `cut_line` takes one of any `len`.
#[derive(Clone, Copy)]
pub struct Partial {
    pub bytes: [u8; Partial::ROOM],
    pub len: usize,
}

impl Partial {
    // One more than a line may have.
    pub const ROOM: usize = reading::LONGEST_LINE + 1;

    // Adds a byte to the line, while there is room.
    fn push(&mut self, byte: u8)
        ensures line { partial_bytes self.new ≡ extend byte (partial_bytes self.old) }
        ensures few { self.old.len ≤ partial_room → self.new.len ≤ partial_room }
    {
        let at = self.len;
        if at < Partial::ROOM {
            self.bytes[at] = byte;
            self.len = at + 1;
        }
    }

    // Adds bytes to the line, as far as there is room.
    fn extend(&mut self, bytes: &[u8])
        ensures line { partial_bytes self.new ≡ extend_all (partial_bytes self.old) bytes.now }
        ensures few { self.old.len ≤ partial_room → self.new.len ≤ partial_room }
    {
        for b in bytes {
            self.push(*b);
        }
    }
}

// A line cut from a chunk: its bytes so far, how far the chunk is used, and whether the line has ended. No `Option`: both are there in either case.
#[derive(Clone, Copy)]
pub struct Cut {
    pub partial: Partial,
    pub used: usize,
    pub ended: bool,
}

// No byte of a line.
#[tactic(auto, unfolding(lines::specs::Machine::partial_room, lines::specs::Reading::longest_line))]
pub fn no_bytes() -> Partial
    ensures { result ≡ record { bytes = replicate partial_room 0; len = 0 } }
{
    Partial {
        bytes: [0; Partial::ROOM],
        len: 0,
    }
}

// Cuts a line from the chunk's bytes from `from` on: those before the next byte 10 are added. Past the chunk's end there is no byte.
pub fn cut_line(h: Partial, chunk: &[u8], from: usize) -> Cut
    ensures { CutFrom h chunk.now (min from (length chunk.now)) result }
{
    let start = lists::lesser(from, chunk.len());
    let end = lists::next_byte(chunk, start, b'\n');
    let bytes = &chunk[start..end];
    let mut partial = h;
    partial.len = lists::lesser(h.len, Partial::ROOM);
    partial.extend(bytes);
    let ended = end < chunk.len();
    Cut {
        partial,
        used: if ended { end + 1 } else { end },
        ended,
    }
}
