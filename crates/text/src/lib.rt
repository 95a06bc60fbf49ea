// Bytes, decimal numbers, fields and lines: what a sheet, a listing or another file of lines is made of.
// A reader answers the first byte at fault, from 0: the first that no good text with the same beginning could have there.
#![tactic(auto)]

ghost use Rattle.std.specs.Prelude.{◌≡◌, ◌≤◌, ◌<◌, ◌+◌, ◌*◌, length, drop};
ghost use Rattle.words.specs.Pieces.{write};
ghost use Rattle.text.specs.Field.{before, common};
ghost use Rattle.text.specs.Number.{number, digits_after, digits, any_over};
ghost use Rattle.text.specs.Line.{item, numbers, line_of, answer_of, taken_of, parted, parted_width, line_text};

// The byte that ends a line.
pub const LF: u8 = b'\n';

// The byte that parts fields.
pub const TAB: u8 = b'\t';

// The first byte at fault of a field or a line, from 0.
#[derive(Clone, Copy)]
pub struct Fault {
    pub at: usize,
}

// A number of a line, and the byte after it.
#[derive(Clone, Copy)]
struct Item {
    value: u32,
    end: usize,
}

// The part of s up to the next b, as it stands; all of s where there is no b.
pub fn cut(s: &[u8], b: u8) -> &[u8]
    ensures { result.now ≡ before b s.now }
{
    match s.iter().position(|c| *c == b) {
        Some(n) => &s[..n],
        None => s,
    }
}

// The number that a field says: 1 to 8 digits, with no leading 0 save 0 alone.
fn number_of(field: &[u8]) -> Result<u32, Fault>
    ensures { result ≡ number field.now }
{
    match field {
        [] => Err(Fault { at: 0 }),
        [b'0'] => Ok(0),
        [b'0', ..] => Err(Fault { at: 1 }),
        _ => digits_of(field),
    }
}

// The number that a field's digits say, at most eight of them.
fn digits_of(field: &[u8]) -> Result<u32, Fault>
    ensures { result ≡ digits_after 0 0 field.now }
{
    let mut v: u32 = 0;
    for (i, c) in field.iter().enumerate() {
        // A value over 9,999,999 has eight digits already.
        if !c.is_ascii_digit() || 9_999_999 < v {
            return Err(Fault { at: i });
        }
        v = v * 10 + u32::from(*c - b'0');
    }
    Ok(v)
}

// How many bytes a line has in common with a word, from the front.
fn in_common(line: &[u8], word: &[u8]) -> usize
    ensures { result ≡ common word.now line.now }
{
    line.iter().zip(word).take_while(|(c, x)| c == x).count()
}

// The number after byte `at` of a line, which has to be sep.
fn item_at(line: &[u8], sep: u8, at: usize) -> Result<Item, Fault>
    ensures { result ≡ item sep at (drop at line.now) }
{
    if line.get(at).copied() != Some(sep) {
        return Err(Fault { at });
    }
    let start = at + 1;
    let field = cut(&line[start..], sep);
    let value = number_of(field).map_err(|fault| Fault {
        at: start + fault.at,
    })?;
    Ok(Item {
        value,
        end: start + field.len(),
    })
}

// As many numbers as out holds, from byte `from` of the line on, each after sep, and then the line's end.
fn numbers_into(line: &[u8], sep: u8, from: usize, out: &mut [u32]) -> Result<(), Fault>
    ensures value { result ≡ answer_of (numbers sep (length out.old) line.now from) }
    ensures out_after { out.new ≡ write out.old 0 (taken_of (numbers sep (length out.old) line.now from)) }
{
    let mut at = from;
    for number in out.iter_mut() {
        let item = item_at(line, sep, at)?;
        *number = item.value;
        at = item.end;
    }
    if at < line.len() {
        return Err(Fault { at });
    }
    Ok(())
}

// A line of the word and as many numbers as out holds.
pub fn word_line(line: &[u8], word: &[u8], sep: u8, out: &mut [u32]) -> Result<(), Fault>
    ensures value { result ≡ answer_of (line_of sep word.now (length out.old) line.now) }
    ensures out_after { out.new ≡ write out.old 0 (taken_of (line_of sep word.now (length out.old) line.now)) }
{
    let at = in_common(line, word);
    if at < word.len() {
        return Err(Fault { at });
    }
    numbers_into(line, sep, word.len(), out)
}

// Whether any of the numbers has more than eight digits.
pub fn any_over(vs: &[u32]) -> bool
    ensures { result ≡ any_over vs.now }
{
    vs.iter().any(|v| 99_999_999 < *v)
}

// How many digits n has.
fn width(n: u32) -> usize
    ensures value { result ≡ length (digits n) }
    ensures upper_bound { result ≤ 10 }
{
    // By ranges, and one digit first: the library's logarithm takes twice the time of this for small numbers, of which a sheet is full.
    if n < 10 {
        return 1;
    }
    match n {
        0..=99 => 2,
        100..=999 => 3,
        1_000..=9_999 => 4,
        10_000..=99_999 => 5,
        100_000..=999_999 => 6,
        1_000_000..=9_999_999 => 7,
        10_000_000..=99_999_999 => 8,
        100_000_000..=999_999_999 => 9,
        _ => 10,
    }
}

// How many bytes the numbers take, each after a byte that parts fields.
pub fn widths(vs: &[u32]) -> usize
    requires { length vs.now ≤ 65536 }
    ensures value { result ≡ parted_width vs.now }
    ensures upper_bound { result ≤ length vs.now * 11 }
{
    vs.iter().map(|v| 1 + width(*v)).sum()
}

// Below, each function writes from byte `at` on and answers the byte after: a rest handed back as a part would leave the buffer without a last value for
// the clause. Digits are put by hand: each byte has its place in the lent bytes, and Display would answer for room that is there.

// Writes the bytes of w from byte `at` on; the byte after them.
fn put_bytes(out: &mut [u8], at: usize, w: &[u8]) -> usize
    requires { at + length w.now ≤ length out.old }
    ensures value { result ≡ at + length w.now }
    ensures out_after { out.new ≡ write out.old at w.now }
{
    let end = at + w.len();
    out[at..end].copy_from_slice(w);
    end
}

// Writes the digits of n from byte `at` on, each straight to its place; the byte after them.
fn put_number(out: &mut [u8], at: usize, n: u32) -> usize
    requires { at + length (digits n) ≤ length out.old }
    ensures value { result ≡ at + length (digits n) }
    ensures out_after { out.new ≡ write out.old at (digits n) }
{
    // One digit ends by itself: with the two cases joined behind the call, each single digit pays for a division.
    if n < 10 {
        out[at] = b'0' + (n % 10) as u8;
        return at + 1;
    }
    let last = put_number(out, at, n / 10);
    out[last] = b'0' + (n % 10) as u8;
    last + 1
}

// Writes the numbers, each after sep; the byte after them.
fn put_numbers(out: &mut [u8], at: usize, sep: u8, vs: &[u32]) -> usize
    requires { at + length (parted sep vs.now) ≤ length out.old }
    ensures value { result ≡ at + length (parted sep vs.now) }
    ensures out_after { out.new ≡ write out.old at (parted sep vs.now) }
{
    let mut a = at;
    for v in vs {
        out[a] = sep;
        a = put_number(out, a + 1, *v);
    }
    a
}

// Writes a line: a word, numbers and the LF; the byte after it.
pub fn put_line(out: &mut [u8], at: usize, word: &[u8], sep: u8, vs: &[u32]) -> usize
    requires { at + length (line_text sep word.now vs.now) ≤ length out.old }
    ensures value { result ≡ at + length (line_text sep word.now vs.now) }
    ensures out_after { out.new ≡ write out.old at (line_text sep word.now vs.now) }
{
    let a = put_bytes(out, at, word);
    let b = put_numbers(out, a, sep, vs);
    out[b] = LF;
    b + 1
}
