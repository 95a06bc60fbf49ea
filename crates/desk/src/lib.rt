// The planner for C: slices, a request of eight words, and one 64-bit number for each answer.
#![tactic(auto)]

ghost use Rattle.std.specs.Prelude.{◌≡◌, ◌<◌, length};
ghost use Rattle.request.specs.Request.{asked};
ghost use Rattle.sheet.specs.Answer.{refusal_said};
ghost use Rattle.sheet.specs.Reader.{read_says, arcs_after};
ghost use Rattle.sheet.specs.Writer.{write_says, sheet_after};
ghost use Rattle.table.specs.Build.{built_of, built_said, ladders_after, labels_after};
ghost use Rattle.route.specs.Answer.{ending_of, route_after};
ghost use Rattle.listing.specs.List as list;
ghost use Rattle.desk.specs.Packed.{pack, packed};
ghost use Rattle.desk.specs.Calls.{request_from, request_words, request_after, ending_said, costs_lent};

use request::{Refusal, Request};
use route::Ending;

// number × 2^48 + low: the byte between them is 0. Numbers, not an enum: this is what C is answered.
fn pack(number: u32, low: u64) -> u64
    requires { (number < 65536) × (low < 4294967296) }
    ensures { result ≡ pack number 0 low }
{
    (number as u64) * 281474976710656 + low
}

// A refusal, packed: its number and its place.
fn pack_refusal(refusal: Refusal) -> u64
    ensures { result ≡ packed (refusal_said refusal) }
{
    pack(refusal.number(), refusal.place() as u64)
}

// The request that eight words are. No `From`, here and below: both types are another crate's, and the eight words are of this call for C alone.
fn request_from(words: &[u32; 8]) -> Request
    ensures { result ≡ request_from words.now }
{
    let [nodes, criteria, source, hops, p1, q1, p2, q2] = *words;
    Request {
        nodes,
        criteria,
        source,
        hops,
        ratios: [p1, q1, p2, q2],
    }
}

// The eight words of a request.
fn put_request(request: Request, words: &mut [u32; 8])
    ensures { words.new ≡ request_words request }
{
    let [p1, q1, p2, q2] = request.ratios;
    *words = [
        request.nodes,
        request.criteria,
        request.source,
        request.hops,
        p1,
        q1,
        p2,
        q2,
    ];
}

// Reads a sheet: its request goes to the eight words, its arcs to the front of the lent arc words, and the answer is the
// count of arc words. A refusal leaves both as they came.
pub fn gowkaroo_read(sheet: &[u8], request: &mut [u32; 8], arcs: &mut [u32]) -> u64
    ensures value { result ≡ packed (read_says sheet.now (length arcs.old)) }
    ensures request_after { request.new ≡ request_after sheet.now (length arcs.old) request.old }
    ensures arcs_after { arcs.new ≡ arcs_after sheet.now arcs.old }
{
    match sheet::read(sheet, arcs) {
        Err(refusal) => pack_refusal(refusal),
        Ok(reading) => {
            put_request(reading.request, request);
            pack(0, reading.words as u64)
        }
    }
}

// Writes the sheet of a request and its arcs to the front of the lent bytes: the answer is its length in bytes.
pub fn gowkaroo_write(request: &[u32; 8], arcs: &[u32], sheet: &mut [u8]) -> u64
    ensures value { result ≡ packed (write_says (request_from request.now) arcs.now (length sheet.old)) }
    ensures sheet_after { sheet.new ≡ sheet_after (request_from request.now) arcs.now sheet.old }
{
    match sheet::write(request_from(request), arcs, sheet) {
        Err(refusal) => pack_refusal(refusal),
        Ok(bytes) => pack(0, bytes as u64),
    }
}

// Draws up the table of a request in the two lent buffers: the answer is the sum of all tries.
pub fn gowkaroo_build(
    request: &[u32; 8],
    arcs: &[u32],
    ladders: &mut [u32],
    labels: &mut [u32],
) -> u64
    ensures value { result ≡ packed (built_said (built_of (asked (request_from request.now) arcs.now) (length ladders.old) (length labels.old))) }
    ensures ladders_after { ladders.new ≡ ladders_after (asked (request_from request.now) arcs.now) ladders.old (length labels.old) }
    ensures labels_after { labels.new ≡ labels_after (asked (request_from request.now) arcs.now) (length ladders.old) labels.old }
{
    match table::build(request_from(request), arcs, ladders, labels) {
        Err(refusal) => pack_refusal(refusal),
        Ok(tries) => pack(0, tries),
    }
}

// Reads the label of a layer, node and cell back as a route: its costs go to the three words, its arc numbers in travel
// order to the front of the lent route words, and the answer is its arc count. An empty cell or a refusal leaves both.
pub fn gowkaroo_read_back(
    request: &[u32; 8],
    arcs: &[u32],
    labels: &[u32],
    layer: u32,
    node: u32,
    cell: u32,
    costs: &mut [u32; 3],
    route: &mut [u32],
) -> u64
    ensures value { result ≡ packed (ending_said (ending_of (asked (request_from request.now) arcs.now) labels.now (length route.old) layer node cell)) }
    ensures costs_after { costs.new ≡ costs_lent (asked (request_from request.now) arcs.now) labels.now (length route.old) layer node cell costs.old }
    ensures route_after { route.new ≡ route_after (asked (request_from request.now) arcs.now) labels.now route.old layer node cell }
{
    let from = request_from(request);
    let back = route::read_back(from, arcs, labels, layer, node, cell, route);
    match back.ending {
        Ending::Refused(refusal) => pack_refusal(refusal),
        Ending::Empty => pack(15, 0),
        Ending::Route(count) => {
            let found = back.costs;
            *costs = found;
            pack(0, count as u64)
        }
    }
}

// Lists a sheet: reader, build and listing, with arc, ladder and label words of its own. The listing goes to the front of
// the lent bytes, and the answer is its length in bytes. A refusal leaves them as they came.
pub fn gowkaroo_list(sheet: &[u8], listing: &mut [u8]) -> u64
    ensures value { result ≡ packed (list.said (list.listed_of sheet.now (length listing.old))) }
    ensures listing_after { listing.new ≡ list.listing_after sheet.now listing.old }
{
    match listing::list(sheet, listing) {
        Err(refusal) => pack_refusal(refusal),
        Ok(listed) => pack(0, listed as u64),
    }
}
