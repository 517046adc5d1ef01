// What the search for the boundary of a flush asks of a buffer.
ghost use Rattle.std.specs.Prelude.{◌≡◌, ◌&&◌, ltb};

// A buffer with this used size and lowest class holds an entry or a record of a class below `class`.
pub fn reaches(used: u32, lowest: u8, class: usize) -> bool
    ensures { result ≡ ltb 0 used && ltb lowest class }
{
    0 < used && (lowest as usize) < class
}
