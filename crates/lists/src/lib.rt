// Lists and numbers: definitions in specs, their laws in proofs, and the functions that code above shares.
#![tactic(auto)]

ghost use Rattle.std.specs.Prelude.{◌≡◌, ◌==◌, ◌+◌, min, drop, position};
ghost use Rattle.lists.specs.Before.{before};

// The lesser of two numbers. What may not change: `greater` and `second` (must-fail) are edits of it.
pub fn lesser(x: usize, y: usize) -> usize
    ensures { result ≡ min x y }
{
    x.min(y)
}

// The place of the first byte like this one.
fn place_of(bytes: &[u8], byte: u8) -> Option<usize>
    ensures { result ≡ position (λ b. b == byte) bytes.now }
{
    bytes.iter().position(|b| *b == byte)
}

// The place of the next byte like this one from `from` on, or the end of the bytes; `from` itself where it is past the end.
pub fn next_byte(bytes: &[u8], from: usize, byte: u8) -> usize
    ensures { result ≡ from + before byte (drop from bytes.now) }
{
    match bytes.get(from..) {
        Some(rest) => from + place_of(rest, byte).unwrap_or(rest.len()),
        None => from,
    }
}
