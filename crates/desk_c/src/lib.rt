// The static library for C: the calls of desk, each with its promise, under their names in include/gowkaroo.h.
// The clauses stand twice: no crate can stand on a static library, and the theorems on the calls are of desk's. tests/names.sh holds the two alike.
#![tactic(auto)]

ghost use Rattle.std.specs.Prelude.{◌≡◌, length};
ghost use Rattle.request.specs.Request.{asked};
ghost use Rattle.sheet.specs.Reader.{read_says, arcs_after};
ghost use Rattle.sheet.specs.Writer.{write_says, sheet_after};
ghost use Rattle.table.specs.Build.{built_of, built_said, ladders_after, labels_after};
ghost use Rattle.route.specs.Answer.{ending_of, route_after};
ghost use Rattle.listing.specs.List as list;
ghost use Rattle.desk.specs.Packed.{packed};
ghost use Rattle.desk.specs.Calls.{request_from, request_after, ending_said, costs_lent};

// Reads a sheet: its request goes to the eight words, its arcs to the front of the lent arc words, and the answer is the
// count of arc words. A refusal leaves both as they came.
#[unsafe(no_mangle)]
pub extern "C" fn gowkaroo_read(sheet: &[u8], request: &mut [u32; 8], arcs: &mut [u32]) -> u64
    ensures value { result ≡ packed (read_says sheet.now (length arcs.old)) }
    ensures request_after { request.new ≡ request_after sheet.now (length arcs.old) request.old }
    ensures arcs_after { arcs.new ≡ arcs_after sheet.now arcs.old }
{
    desk::gowkaroo_read(sheet, request, arcs)
}

// Writes the sheet of a request and its arcs to the front of the lent bytes: the answer is its length in bytes.
#[unsafe(no_mangle)]
pub extern "C" fn gowkaroo_write(request: &[u32; 8], arcs: &[u32], sheet: &mut [u8]) -> u64
    ensures value { result ≡ packed (write_says (request_from request.now) arcs.now (length sheet.old)) }
    ensures sheet_after { sheet.new ≡ sheet_after (request_from request.now) arcs.now sheet.old }
{
    desk::gowkaroo_write(request, arcs, sheet)
}

// Draws up the table of a request in the two lent buffers: the answer is the sum of all tries.
#[unsafe(no_mangle)]
pub extern "C" fn gowkaroo_build(
    request: &[u32; 8],
    arcs: &[u32],
    ladders: &mut [u32],
    labels: &mut [u32],
) -> u64
    ensures value { result ≡ packed (built_said (built_of (asked (request_from request.now) arcs.now) (length ladders.old) (length labels.old))) }
    ensures ladders_after { ladders.new ≡ ladders_after (asked (request_from request.now) arcs.now) ladders.old (length labels.old) }
    ensures labels_after { labels.new ≡ labels_after (asked (request_from request.now) arcs.now) (length ladders.old) labels.old }
{
    desk::gowkaroo_build(request, arcs, ladders, labels)
}

// Reads the label of a layer, node and cell back as a route: its costs go to the three words, its arc numbers in travel
// order to the front of the lent route words, and the answer is its arc count. An empty cell or a refusal leaves both.
#[unsafe(no_mangle)]
pub extern "C" fn gowkaroo_read_back(
    request: &[u32; 8],
    arcs: &[u32],
    labels: &[u32],
    layer: u32,
    node: u32,
    cell: u32,
    costs: &mut [u32; 3],
    route: &mut [u32],
) -> u64
    ensures value { result ≡ packed (ending_said (ending_of (asked (request_from request.now) arcs.now) labels.now (length route.old) layer node cell)) }
    ensures costs_after { costs.new ≡ costs_lent (asked (request_from request.now) arcs.now) labels.now (length route.old) layer node cell costs.old }
    ensures route_after { route.new ≡ route_after (asked (request_from request.now) arcs.now) labels.now route.old layer node cell }
{
    desk::gowkaroo_read_back(request, arcs, labels, layer, node, cell, costs, route)
}

// Lists a sheet: reader, build and listing, with arc, ladder and label words of its own. The listing goes to the front of
// the lent bytes, and the answer is its length in bytes. A refusal leaves them as they came.
#[unsafe(no_mangle)]
pub extern "C" fn gowkaroo_list(sheet: &[u8], listing: &mut [u8]) -> u64
    ensures value { result ≡ packed (list.said (list.listed_of sheet.now (length listing.old))) }
    ensures listing_after { listing.new ≡ list.listing_after sheet.now listing.old }
{
    desk::gowkaroo_list(sheet, listing)
}
