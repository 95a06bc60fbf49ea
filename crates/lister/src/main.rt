// The lister: reads a sheet from standard input and prints its listing, or its first refusal.
#![tactic(auto)]

ghost use Rattle.std.specs.Prelude.{OnOk, IfSome};
ghost use Rattle.std.specs.Io.KnownBytes.{Appends};
ghost use Rattle.printout.specs.Printout.{printout_of};

use std::io;
use std::io::{Read, Write};

// Reads a sheet and prints for it, however long it is.
fn list<R: Read, W: Write>(input: &mut R, out: &mut W) -> io::Result<()>
    ensures { OnOk result (IfSome (R.remaining input.old) (λ sheet. Appends (W.contents out.old) (W.contents out.new) (printout_of sheet))) }
{
    // One byte more than a sheet may have, so that a longer one is seen to be longer.
    let mut sheet = [0u8; 8193];
    let n = printer::read_full(input, &mut sheet)?;
    printer::print(out, &sheet[..n]).written
}

fn main(rt: HostRuntime) -> io::Result<()> {
    list(&mut rt.stdin(), &mut rt.stdout())
}
