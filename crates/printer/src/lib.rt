// Prints, for a sheet, what the lister prints. Reads, for both programs, what a reader has to give.
#![tactic(auto)]

ghost use Rattle.std.specs.Prelude.{◌≡◌, ◌≤◌, ◌<◌, length, take, IfOk, OnOk};
ghost use Rattle.std.specs.Io.KnownBytes.{Appends, Consumes, IsAtEnd};
ghost use Rattle.printout.specs.Printout.{printout_of};

use std::io;
use std::io::{Read, Write};

// How many bytes the print of a sheet has, whatever becomes of writing them; and what became of it.
// Not a Result of the length: the clause `length` of `print` holds whatever became of the writing.
#[derive(Drop)]
pub struct Printing {
    pub length: usize,
    pub written: io::Result<()>,
}

// Prints for a sheet, from bytes that suffice for every listing.
pub fn print<W: Write>(out: &mut W, sheet: &[u8]) -> Printing
    ensures length { result.length ≡ length (printout_of sheet.now) }
    ensures written { OnOk result.written (Appends (W.contents out.old) (W.contents out.new) (printout_of sheet.now)) }
{
    let mut text = [0u8; 53000];
    let length = printout::print_out(sheet, &mut text);
    let written = out.write_all(&text[..length]);
    Printing { length, written }
}

// Reads until the bytes are full or the input ends, and answers how many were put at their front.
pub fn read_full<R: Read>(input: &mut R, bytes: &mut [u8]) -> io::Result<usize>
    ensures fits { IfOk result (λ n. n ≤ length bytes.new) }
    ensures read { IfOk result (λ n. Consumes (R.remaining input.old) (R.remaining input.new) (take n bytes.new)) }
    ensures all { IfOk result (λ n. n < length bytes.new → IsAtEnd (R.remaining input.new)) }
{
    // No count by hand: how far each read comes is the reader's to say.
    let mut done = 0;
    while done < bytes.len() {
        let n = input.read(&mut bytes[done..])?;
        if n == 0 {
            break;
        }
        done += n;
    }
    Ok(done)
}
