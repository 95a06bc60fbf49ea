// Prints, one after another, what the lister prints for each sheet of standard input. A sheet stands after a line of four digits, its length.
#![tactic(auto)]

ghost use Rattle.std.specs.Prelude.{◌≡◌, ◌%◌, ◌<◌};

use std::io;

// The value of a decimal digit. Not by `parse`: these are any four bytes, and each has a value.
fn digit(byte: u8) -> usize
    ensures { (result ≡ byte % 16 % 10) × (result < 10) }
{
    let value = byte % 16 % 10;
    value as usize
}

// The length that a line of four digits says.
fn length_of(line: [u8; 5]) -> usize
    ensures { result < 10000 }
{
    digit(line[0]) * 1000 + digit(line[1]) * 100 + digit(line[2]) * 10 + digit(line[3])
}

// One sheet; false at the end of the input.
fn next(rt: &HostRuntime) -> io::Result<bool> {
    let mut line = [0u8; 5];
    let got = printer::read_full(&mut rt.stdin(), &mut line)?;
    if got < 5 {
        return Ok(false);
    }
    let n = length_of(line);
    let mut sheet = [0u8; 10000];
    printer::read_full(&mut rt.stdin(), &mut sheet[..n])?;
    printer::print(&mut rt.stdout(), &sheet[..n]).written?;
    Ok(true)
}

// A proved loop has to end, and nothing says that the input does: it ends after more sheets than there are.
fn main(rt: HostRuntime) -> io::Result<()> {
    for _ in 0..1_000_000 {
        if !next(&rt)? {
            break;
        }
    }
    Ok(())
}
