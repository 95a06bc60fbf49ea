// From a sheet's bytes to its listing's bytes: reader, build and listing, with the words that they need.
ghost use Rattle.std.specs.Prelude.{◌≡◌, length};
ghost use Rattle.request.specs.Request.{asked};
ghost use Rattle.request.specs.Accepted.{Accepted};
ghost use Rattle.request.specs.Answer.{shape_of};
ghost use Rattle.listing.specs.List.{request_listed, request_after, listed_of, listing_after};

use crate::tables::LabelTable;
use request::{Refusal, Request, Shape, check};
use route::Store;
use sheet::read;
use table::build;

// The listing of an accepted request with its shape, from 12,288 label words.
fn list_shaped(
    request: Request,
    arcs: &[u32],
    shape: Shape,
    listing: &mut [u8],
) -> Result<u32, Refusal>
    requires { (Accepted (asked request arcs.now)) × (shape ≡ shape_of (asked request arcs.now)) }
    ensures value { result ≡ request_listed (asked request arcs.now) (length listing.old) }
    ensures listing_after { listing.new ≡ request_after (asked request arcs.now) listing.old }
{
    let mut ladders = [0u32; 8194];
    let mut labels = [0u32; 12288];
    let tries = build(request, arcs, &mut ladders, &mut labels)?;
    let words = shape.labels as usize * (request.criteria as usize + 2);
    let store = Store {
        request,
        arcs,
        labels: &labels[..words],
        cells: shape.cells,
    };
    let table = LabelTable { store };
    table.print(tries as u32, listing).ok_or(Refusal::Room(3))
}

// The listing of a request, or the first refusal of rows 2 to 10 with 17, and 13.
fn list_request(request: Request, arcs: &[u32], listing: &mut [u8]) -> Result<u32, Refusal>
    ensures value { result ≡ request_listed (asked request arcs.now) (length listing.old) }
    ensures listing_after { listing.new ≡ request_after (asked request arcs.now) listing.old }
{
    let shape = check(request, arcs)?;
    list_shaped(request, arcs, shape, listing)
}

// The listing of a sheet at the front of the lent bytes, or the first refusal, which leaves them as they came.
pub fn list(sheet: &[u8], listing: &mut [u8]) -> Result<u32, Refusal>
    ensures value { result ≡ listed_of sheet.now (length listing.old) }
    ensures listing_after { listing.new ≡ listing_after sheet.now listing.old }
{
    let mut arcs = [0u32; 2560];
    let reading = read(sheet, &mut arcs)?;
    list_request(reading.request, &arcs[..reading.words as usize], listing)
}
