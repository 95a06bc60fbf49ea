// The writer of a sheet: its length is known before its first byte is written.
ghost use Rattle.std.specs.Prelude.{◌≡◌, ◌≤◌, ◌+◌, length};
ghost use Rattle.words.specs.Pieces.{write};
ghost use Rattle.text.specs.Number.{any_over};
ghost use Rattle.sheet.specs.Writer.{writing_said, ask_numbers, numbers_of, lines_of, written, write_says, sheet_after, Ranged};

use crate::MOST_BYTES;
use request::{Refusal, Request, weigh_arc_words, weigh_criteria};
use text::TAB;

// What a sheet is to say, past rows 3 and 7: d is 2 or 3, and the words are those of at most 512 arcs.
#[derive(Clone, Copy)]
struct Content<'a> {
    request: Request,
    arcs: &'a [u32],
    ghost ranged: { Ranged request.criteria arcs.now },
}

impl Content<'_> {
    // The numbers of the `ask` line, with both ratios.
    fn asks(&self) -> [u32; 6]
        ensures { result ≡ ask_numbers self.now.request }
    {
        let [p1, q1, p2, q2] = self.request.ratios;
        [self.request.source, self.request.hops, p1, q1, p2, q2]
    }

    // Whether a number to be written is over 99,999,999.
    fn over(&self) -> bool
        ensures { result ≡ any_over (numbers_of self.now.request self.now.arcs.now) }
    {
        let v = self.asks();
        let n = self.request.criteria as usize * 2;
        text::any_over(&[self.request.nodes, self.request.criteria])
            || text::any_over(self.arcs)
            || text::any_over(&v[..n])
    }

    // The sheet's length in bytes.
    fn byte_count(&self) -> usize
        ensures value { result ≡ length (written self.now.request self.now.arcs.now) }
        ensures upper_bound { result ≤ 65536 }
    {
        let first = [self.request.nodes, self.request.criteria];
        let d = self.request.criteria as usize;
        let m = self.arcs.len() / (d + 2);
        let v = self.asks();
        let n = d * 2;
        let lines = 7 + text::widths(&first) + m * 4 + text::widths(self.arcs);
        lines + 4 + text::widths(&v[..n])
    }

    // Writes the `arc` lines from byte `at` on; the byte after them.
    fn put_arcs(&self, sheet: &mut [u8], at: usize) -> usize
        requires { at + length (lines_of self.now.request self.now.arcs.now) ≤ length sheet.old }
        ensures value { result ≡ at + length (lines_of self.now.request self.now.arcs.now) }
        ensures sheet_after { sheet.new ≡ write sheet.old at (lines_of self.now.request self.now.arcs.now) }
    {
        let w = self.request.criteria as usize + 2;
        let mut e = at;
        for arc in self.arcs.chunks_exact(w) {
            e = text::put_line(sheet, e, b"arc", TAB, arc);
        }
        e
    }

    // Writes the whole sheet.
    fn put(&self, sheet: &mut [u8])
        requires { length (written self.now.request self.now.arcs.now) ≤ length sheet.old }
        ensures { sheet.new ≡ write sheet.old 0 (written self.now.request self.now.arcs.now) }
    {
        let first = [self.request.nodes, self.request.criteria];
        let a = text::put_line(sheet, 0, b"tracks", TAB, &first);
        let b = self.put_arcs(sheet, a);
        let v = self.asks();
        let n = self.request.criteria as usize * 2;
        text::put_line(sheet, b, b"ask", TAB, &v[..n]);
    }
}

// Writes a sheet: its bytes at the front of the lent bytes.
pub fn write(request: Request, arcs: &[u32], sheet: &mut [u8]) -> Result<u32, Refusal>
    ensures result_value { writing_said result ≡ write_says request arcs.now (length sheet.old) }
    ensures sheet_after { sheet.new ≡ sheet_after request arcs.now sheet.old }
{
    weigh_criteria(request.criteria)?;
    weigh_arc_words(arcs.len(), request.criteria as usize + 2)?;
    let content = Content { request, arcs };
    if content.over() {
        return Err(Refusal::Digits);
    }
    let n = content.byte_count();
    if MOST_BYTES < n {
        return Err(Refusal::Bytes);
    }
    if sheet.len() < n {
        return Err(Refusal::Room(1));
    }
    content.put(sheet);
    Ok(n as u32)
}
