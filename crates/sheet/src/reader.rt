// The reader of a sheet: its form is judged first, line by line, and only then are the arcs' words stored.
ghost use Rattle.std.specs.Prelude.{◌≡◌, ◌≤◌, ◌<◌, ◌+◌, ◌*◌, [], length, drop, Ok, IfOk};
ghost use Rattle.words.specs.Pieces.{write};
ghost use Rattle.text.specs.Line.{line_of, answer_of, taken_of};
ghost use Rattle.sheet.specs.Grammar.{tab, arc_word, arc_line, ask_line, kind_of, lines_from, sheet_of};
ghost use Rattle.sheet.specs.Inside.{is_good, ask_kind, line_kind, form_of};
ghost use Rattle.sheet.specs.Reader.{said, words_of, read_says, read_request, arcs_after};

use crate::{MOST_BYTES, Reading};
use request::{MOST_ARCS, Refusal, Request, weigh_criteria};
use text::{Fault, LF, TAB};

// What a line after the first is; an `ask` line completes the request.
#[derive(Clone, Copy)]
enum LineKind {
    Arc,
    Ask(Request),
}

// All that a sheet says but its arcs' words.
#[derive(Clone, Copy)]
struct Form {
    request: Request,
    arcs: u32,
}

// An `arc` line of as many numbers as the words that are lent for them.
fn arc_line(line: &[u8], words: &mut [u32]) -> Result<(), Fault>
    ensures value { result ≡ answer_of (line_of tab arc_word (length words.old) line.now) }
    ensures words_after { words.new ≡ write words.old 0 (taken_of (line_of tab arc_word (length words.old) line.now)) }
{
    text::word_line(line, b"arc", TAB, words)
}

// What line 1 says: N, and d, which is 2 or 3.
#[derive(Clone, Copy)]
struct Tracks {
    nodes: u32,
    criteria: u32,
    ghost two_or_three: { (2 ≤ criteria) × (criteria ≤ 3) },
}

impl Tracks {
    // Whether the line is an arc: tail, head and d costs.
    fn is_arc(self, line: &[u8]) -> bool
        ensures { result ≡ is_good (arc_line self.criteria line.now) }
    {
        let mut words = [0u32; 5];
        arc_line(line, &mut words[..self.criteria as usize + 2]).is_ok()
    }

    // The request that an `ask` line completes; a ratio that is not there is 0 over 1.
    fn ask_line(self, line: &[u8]) -> Option<Request>
        ensures { result ≡ ask_kind self.nodes self.criteria (ask_line self.criteria line.now) }
    {
        let mut v = [0u32, 0, 0, 0, 0, 1];
        text::word_line(line, b"ask", TAB, &mut v[..self.criteria as usize * 2]).ok()?;
        Some(Request {
            nodes: self.nodes,
            criteria: self.criteria,
            source: v[0],
            hops: v[1],
            ratios: [v[2], v[3], v[4], v[5]],
        })
    }

    // What a line is before which m arcs stand.
    fn kind_of(self, line: &[u8], m: u32) -> Option<LineKind>
        ensures { result ≡ line_kind self.nodes self.criteria (kind_of self.criteria m line.now) }
    {
        if m < MOST_ARCS && self.is_arc(line) {
            return Some(LineKind::Arc);
        }
        self.ask_line(line).map(LineKind::Ask)
    }

    // The form of the sheet, or its first bad line, by the lines from byte `from` on, where line 2 begins.
    fn check_lines(self, sheet: &[u8], from: usize) -> Result<Form, Refusal>
        requires { (1 ≤ from) × (from ≤ length sheet.now) × (length sheet.now ≤ 8192) }
        ensures { result ≡ form_of (lines_from self.nodes self.criteria 0 2 [] (drop from sheet.now)) }
    {
        let mut at = from;
        let mut m = 0;
        // The survey's paper names this form: what stands after the last LF is a part of the sheet of its own, and goes to the line's reader.
        while at < sheet.len() {
            let line = text::cut(&sheet[at..], LF);
            let e = at + line.len();
            if sheet.len() <= e {
                return Err(Refusal::Form(m + 2));
            }
            match self.kind_of(line, m) {
                Some(LineKind::Arc) => {
                    m += 1;
                    at = e + 1;
                }
                Some(LineKind::Ask(request)) => {
                    if e + 1 == sheet.len() {
                        return Ok(Form { request, arcs: m });
                    }
                    return Err(Refusal::Form(m + 3));
                }
                None => return Err(Refusal::Form(m + 2)),
            }
        }
        Err(Refusal::Form(m + 2))
    }
}

// The form of a whole sheet, or its first bad line. Nothing is stored.
fn check(sheet: &[u8]) -> Result<Form, Refusal>
    requires { length sheet.now ≤ 8192 }
    ensures { result ≡ form_of (sheet_of sheet.now) }
{
    let line = text::cut(sheet, LF);
    let e = line.len();
    // First, so that a sheet without its LF is gone through once.
    if sheet.len() <= e {
        return Err(Refusal::Form(1));
    }
    let mut v = [0u32; 2];
    let first = text::word_line(line, b"tracks", TAB, &mut v);
    if first.is_err() || weigh_criteria(v[1]).is_err() {
        return Err(Refusal::Form(1));
    }
    let tracks = Tracks {
        nodes: v[0],
        criteria: v[1],
    };
    tracks.check_lines(sheet, e + 1)
}

// Stores the words of the arcs of a sheet that is whole, and has this form: its next m lines are arcs.
fn store_arcs(sheet: &[u8], form: Form, arcs: &mut [u32])
    requires { (form_of (sheet_of sheet.now) ≡ Ok form) × (length (words_of (sheet_of sheet.now)) ≡ length arcs.old) }
    ensures { arcs.new ≡ words_of (sheet_of sheet.now) }
{
    let n = form.request.criteria as usize + 2;
    let mut at = text::cut(sheet, LF).len() + 1;
    // Over chunks_exact_mut the proof did not close: of what was written through such a part nothing is known.
    for i in 0..form.arcs as usize {
        let line = text::cut(&sheet[at..], LF);
        let p = i * n;
        // The line is good: the form was checked.
        let _ = arc_line(line, &mut arcs[p..p + n]);
        at += line.len() + 1;
    }
}

// Reads a sheet: its request, and its arcs' words at the front of the lent words.
pub fn read(sheet: &[u8], arcs: &mut [u32]) -> Result<Reading, Refusal>
    ensures value { said result ≡ read_says sheet.now (length arcs.old) }
    ensures request { IfOk result (λ s. s.request ≡ read_request sheet.now (length arcs.old)) }
    ensures arcs_after { arcs.new ≡ arcs_after sheet.now arcs.old }
{
    if MOST_BYTES < sheet.len() {
        return Err(Refusal::Bytes);
    }
    let form = check(sheet)?;
    let request = form.request;
    let words = form.arcs * (request.criteria + 2);
    let n = words as usize;
    if arcs.len() < n {
        return Err(Refusal::Room(1));
    }
    store_arcs(sheet, form, &mut arcs[..n]);
    Ok(Reading { request, words })
}
