// Parts of a line or of an input: where one ends.
ghost use Rattle.std.specs.Prelude.{◌≡◌, ◌==◌};
ghost use Rattle.std.specs.List.{position};
ghost use Rattle.lines.specs.Parts.{part_end};

// The place of the first `by`.
fn place_of(bytes: &[u8], by: u8) -> Option<usize>
    ensures { result ≡ position (λ b. b == by) bytes.now }
{
    bytes.iter().position(|b| *b == by)
}

// The place of the next `by` from a place on, or the end.
pub fn part_end(bytes: &[u8], from: usize, by: u8) -> usize
    ensures { result ≡ part_end by bytes.now from }
{
    let rest = &bytes[from.min(bytes.len())..];
    from + place_of(rest, by).unwrap_or(rest.len())
}
