// A stream cut into lines: it comes in pieces, and the line begun is kept in a lent buffer.
// A line keeps the first bytes that the buffer holds, and the rest of it is passed over. No line of `replay` or `drill` that
// asks for anything has more than 25 bytes, so in a buffer of 26 or more a line that is cut asks for nothing, as the whole line.
ghost use Rattle.std.specs.Prelude.{◌≡◌, ◌+◌, length};
ghost use Rattle.std.proofs.Math.Seq.{paste};
ghost use Rattle.lines.specs.Feeding.{kept_of, fed_of, held_of};

use crate::Fed;
use crate::parts::part_end;
use texts::LINE_FEED;

// How many of `size` bytes go into a buffer of `room` bytes that holds len.
fn kept(room: usize, len: usize, size: usize) -> usize
    ensures { result ≡ kept_of room len size }
{
    size.min(room.saturating_sub(len))
}

// Puts what fits of a part behind the len bytes held, and answers how many are held then.
fn keep(part: &[u8], line: &mut [u8], len: usize) -> usize
    ensures { (result ≡ len + kept_of (length line.old) len (length part.now)) × (line.new ≡ paste line.old len part.now (kept_of (length line.old) len (length part.now))) }
{
    let n = kept(line.len(), len, part.len());
    if n == 0 {
        return len;
    }
    let end = len + n;
    line[len..end].copy_from_slice(&part[..n]);
    end
}

// Takes from a piece, from a place on, what belongs to the present line, of which len bytes are held: it stops behind the
// next line feed or at the piece's end.
pub fn feed(piece: &[u8], from: usize, line: &mut [u8], len: usize) -> Fed
    ensures { (result ≡ fed_of piece.now from (length line.old) len) × (line.new ≡ held_of piece.now from line.old len) }
{
    if piece.len() <= from {
        return Fed {
            next: from,
            len,
            done: false,
        };
    }
    let end = part_end(piece, from, LINE_FEED);
    let held = keep(&piece[from..end], line, len);
    if piece.len() <= end {
        return Fed {
            next: end,
            len: held,
            done: false,
        };
    }
    Fed {
        next: end + 1,
        len: held,
        done: true,
    }
}
