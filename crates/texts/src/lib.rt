// Numbers as text: a word read as a number, and text put into a lent buffer.
// Every public function here but `put_field` and `put_line` takes any arguments. Each `put` writes its text at a place and answers the place
// behind it; where the text does not fit there, nothing is written and the same place is answered. Whoever calls `put_field` or
// `put_line` sees that the buffer has room for it. Buffer and place go as two arguments, as the trait of `streams` has them.
#![tactic(auto)]

ghost use Rattle.std.specs.Prelude.{◌≡◌, ◌+◌, ◌*◌, ◌≤◌, ◌<◌, [], ◌∷◌, length, leb};
ghost use Rattle.texts.specs.Numbers.{number_of, last_digits, width_in, decimal, hex_digit, hex_of, put_into, place_behind};
ghost use Rattle.texts.specs.Fields.{field, number_line, Fronted};

// The byte between two words.
pub const BLANK: u8 = b' ';

// The byte that ends a line.
pub const LINE_FEED: u8 = b'\n';

// The most digits of any number: nine fit into 32 bits.
const MOST: usize = 9;

// The most digits of a number in a line of `replay`.
pub const SHORT_DIGITS: usize = 5;

// The most digits of a number in a line of `drill` or a word of `mapview`.
pub const LONG_DIGITS: usize = 7;

// The number in a word of 1 to `most` digits, nine at most.
pub fn number(word: &[u8], most: usize) -> Option<u32>
    ensures { result ≡ number_of most word.now }
{
    if word.is_empty() || most.min(MOST) < word.len() {
        return None;
    }
    let mut value = 0;
    for b in word {
        if !b.is_ascii_digit() {
            return None;
        }
        value = value * 10 + u32::from(*b - b'0');
    }
    Some(value)
}

fn fits(room: usize, at: usize, size: usize) -> bool
    ensures { result ≡ leb (at + size) room }
{
    at <= room && size <= room - at
}

// One byte.
pub fn put_byte(out: &mut [u8], at: usize, byte: u8) -> usize
    ensures { (result ≡ place_behind out.old at (byte ∷ [])) × (out.new ≡ put_into out.old at (byte ∷ [])) }
{
    if out.len() <= at {
        return at;
    }
    out[at] = byte;
    at + 1
}

// These bytes.
pub fn put_bytes(out: &mut [u8], at: usize, text: &[u8]) -> usize
    ensures { (result ≡ place_behind out.old at text.now) × (out.new ≡ put_into out.old at text.now) }
{
    if !fits(out.len(), at, text.len()) {
        return at;
    }
    let end = at + text.len();
    out[at..end].copy_from_slice(text);
    end
}

// The decimal digits of a number.
pub fn put_number(out: &mut [u8], at: usize, n: u64) -> usize
    ensures { (result ≡ place_behind out.old at (decimal n)) × (out.new ≡ put_into out.old at (decimal n)) }
{
    let width = width_of(n);
    if !fits(out.len(), at, width) {
        return at;
    }
    let end = at + width;
    write_digits(&mut out[at..end], n);
    end
}

// A number, and the byte behind it.
pub fn put_field(out: &mut [u8], at: usize, n: u64, by: u8) -> usize
    requires { at + length (field n by) ≤ length out.old }
    ensures { Fronted out.old at (field n by) result out.new }
{
    let next = put_number(out, at, n);
    put_byte(out, next, by)
}

// A line of numbers, with a blank between two of them.
pub fn put_line(out: &mut [u8], at: usize, numbers: &[u64]) -> usize
    requires { at + length (number_line numbers.now) ≤ length out.old }
    ensures { Fronted out.old at (number_line numbers.now) result out.new }
{
    let mut next = at;
    for (i, n) in numbers.iter().enumerate() {
        let by = if i + 1 < numbers.len() {
            BLANK
        } else {
            LINE_FEED
        };
        next = put_field(out, next, *n, by);
    }
    next
}

fn width_of(n: u64) -> usize
    ensures { result ≡ width_in 19 n }
{
    n.max(1).ilog10() as usize + 1
}

fn write_digits(place: &mut [u8], n: u64)
    ensures { place.new ≡ last_digits (length place.old) n }
{
    let mut rest = n;
    for i in (0..place.len()).rev() {
        place[i] = b'0' + (rest % 10) as u8;
        rest /= 10;
    }
}

// Two hexadecimal digits, upper case, for each byte.
pub fn put_hex(out: &mut [u8], at: usize, text: &[u8]) -> usize
    ensures { (result ≡ place_behind out.old at (hex_of text.now)) × (out.new ≡ put_into out.old at (hex_of text.now)) }
{
    let room = out.len();
    let n = text.len();
    if room / 2 < n {
        return at;
    }
    if !fits(room, at, 2 * n) {
        return at;
    }
    let end = at + 2 * n;
    write_hex(&mut out[at..end], text);
    end
}

fn write_hex(place: &mut [u8], text: &[u8])
    requires { length place.old ≡ 2 * length text.now }
    ensures { place.new ≡ hex_of text.now }
{
    for (i, b) in text.iter().enumerate() {
        place[2 * i] = hex_digit(b / 16);
        place[2 * i + 1] = hex_digit(b % 16);
    }
}

fn hex_digit(d: u8) -> u8
    requires { d < 16 }
    ensures { result ≡ hex_digit d }
{
    if d < 10 { b'0' + d } else { b'A' + (d - 10) }
}
