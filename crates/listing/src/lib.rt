// The listing of a built table: its length is known before its first byte is written. And the listing of a sheet.
#![tactic(auto)]

mod sheets;
mod tables;

ghost use Rattle.std.specs.Prelude.{◌≡◌, ◌≤◌, length};
ghost use Rattle.listing.specs.Listing.{refusal_line};
ghost use Rattle.listing.specs.Print.{printed_of, bytes_after};

pub use sheets::list;
use text::TAB;

// Prints the line of a refusal at the front of the lent bytes, of any number and place: how many bytes there are, none where it is longer than they are.
pub fn print_refusal(number: u32, place: u32, out: &mut [u8]) -> Option<u32>
    ensures value { result ≡ printed_of (refusal_line number place) (length out.old) }
    ensures out_after { out.new ≡ bytes_after (refusal_line number place) out.old }
    ensures upper_bound { length (refusal_line number place) ≤ 30 }
{
    let numbers = [number, place];
    let n = 8 + text::widths(&numbers);
    if out.len() < n {
        return None;
    }
    text::put_line(out, 0, b"refused", TAB, &numbers);
    Some(n as u32)
}
