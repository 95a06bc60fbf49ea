// What the lister prints for a sheet: its listing, or the line of its first refusal. 53,000 bytes are enough for every listing.
#![tactic(auto)]

ghost use Rattle.std.specs.Prelude.{◌≡◌, ◌≤◌, length};
ghost use Rattle.words.specs.Pieces.{write};
ghost use Rattle.printout.specs.Printout.{printout_of};

use listing::{list, print_refusal};

// What is printed for a sheet, at the front of the text; its length is the answer, and what lies beyond stays as it was.
pub fn print_out(sheet: &[u8], text: &mut [u8]) -> usize
    requires { 53000 ≤ length text.old }
    ensures value { (result ≡ length (printout_of sheet.now)) × (result ≤ 53000) }
    ensures text_after { text.new ≡ write text.old 0 (printout_of sheet.now) }
{
    match list(sheet, text) {
        Ok(n) => n as usize,
        Err(refusal) => print_refusal(refusal.number(), refusal.place(), text).unwrap() as usize,
    }
}
