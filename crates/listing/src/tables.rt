// The listing of a built table's last layer: how long it is, and the listing itself.
ghost use Rattle.std.specs.Prelude.{◌≡◌, ◌+◌, ◌*◌, ◌≤◌, ◌<◌, length, IfSome};
ghost use Rattle.words.specs.Pieces.{write};
ghost use Rattle.request.specs.Request.{width};
ghost use Rattle.request.specs.Shape.{label_count};
ghost use Rattle.listing.specs.Listing.{filled_of, filled_last, label_numbers, label_line, node_lines, label_lines, listing_text};
ghost use Rattle.listing.specs.Print.{asked_in, measured, printed_of, bytes_after};

use route::{Spot, Store};
use text::TAB;
use words::copy;

// The table of an accepted request: a store of as many words as it has.
#[derive(Clone, Copy)]
pub(crate) struct LabelTable<'a> {
    pub store: Store<'a>,
    ghost words: { length store.labels.now ≡ label_count (asked_in store) * width (asked_in store) },
}

// How many labels are filled, and how many bytes their lines take.
#[derive(Clone, Copy)]
struct Measure {
    filled: u32,
    bytes: usize,
}

impl<'a> LabelTable<'a> {
    // The place of the label of the last layer, of this node and cell. What follows takes these two numbers: given a Spot, each would ask for the last layer.
    fn spot(&self, node: u32, cell: u32) -> Spot
        ensures { result ≡ record { layer = self.now.store.request.hops; node = node; cell = cell } }
    {
        Spot {
            layer: self.store.request.hops,
            node,
            cell,
        }
    }

    // The numbers of a label's line, in fixed memory: node, costs, arc count, arc numbers. A broken chain has no arcs.
    fn numbers<'b>(&self, node: u32, cell: u32, words: &'b mut [u32]) -> &'b [u32]
        requires node_lt_nodes { (node < self.now.store.request.nodes) × (cell < self.now.store.cells) }
        requires room { length words.old ≡ 68 }
        ensures { result.now ≡ label_numbers (asked_in self.now.store) self.now.store.labels.now node cell }
    {
        let d = self.store.request.criteria as usize;
        let spot = self.spot(node, cell);
        words[0] = node;
        copy(&mut words[1..d + 1], &self.store.label(spot)[..d]);
        // Of a copy: with the table's own store handed out here, its sizes are loaded and multiplied again for each cell of the loops below.
        let store = self.store;
        let arcs = store.follow(spot, &mut words[d + 2..]).unwrap_or(0);
        words[d + 1] = arcs;
        &words[..d + 2 + arcs as usize]
    }

    // What follows goes over the labels twice, to measure and to write: 13 has to be known before the first byte. One walk with a closure for both is no
    // plainer: of what a closure wrote nothing would be known.

    // How many bytes the line of a label takes, none where the label is empty.
    fn measure_label(&self, node: u32, cell: u32) -> Option<usize>
        requires { (node < self.now.store.request.nodes) × (cell < self.now.store.cells) }
        ensures value { result ≡ measured (asked_in self.now.store) self.now.store.labels.now node cell }
        ensures upper_bound { IfSome result (λ bytes. bytes ≤ 754) }
    {
        if !self.store.is_filled(self.spot(node, cell)) {
            return None;
        }
        let mut words = [0u32; 68];
        let numbers = self.numbers(node, cell, &mut words);
        Some(6 + text::widths(numbers))
    }

    // The lines of a node, cells rising.
    fn measure_node(&self, node: u32) -> Measure
        requires { node < self.now.store.request.nodes }
        ensures filled_value { (result.filled ≡ filled_of (asked_in self.now.store) self.now.store.labels.now node) × (result.filled ≤ self.now.store.cells) }
        ensures bytes_value { (result.bytes ≡ length (node_lines (asked_in self.now.store) self.now.store.labels.now node)) × (result.bytes ≤ self.now.store.cells * 754) }
    {
        let mut filled: u32 = 0;
        let mut bytes = 0;
        for c in 0..self.store.cells {
            if let Some(n) = self.measure_label(node, c) {
                filled += 1;
                bytes += n;
            }
        }
        Measure { filled, bytes }
    }

    // The lines of all nodes, nodes rising.
    fn measure_lines(&self) -> Measure
        ensures filled_value { result.filled ≡ filled_last (asked_in self.now.store) self.now.store.labels.now }
        ensures bytes_value { (result.bytes ≡ length (label_lines (asked_in self.now.store) self.now.store.labels.now)) × (result.bytes ≤ 790626304) }
    {
        let mut filled: u32 = 0;
        let mut bytes = 0;
        for v in 0..self.store.request.nodes {
            let node = self.measure_node(v);
            filled += node.filled;
            bytes += node.bytes;
        }
        Measure { filled, bytes }
    }

    // Writes the line of a label from byte `at` on, where the label is filled; the byte after it.
    fn put_label(&self, node: u32, cell: u32, listing: &mut [u8], at: usize) -> usize
        requires node_lt_nodes { (node < self.now.store.request.nodes) × (cell < self.now.store.cells) }
        requires cell_in_bounds { at + length (label_line (asked_in self.now.store) self.now.store.labels.now node cell) ≤ length listing.old }
        ensures value { result ≡ at + length (label_line (asked_in self.now.store) self.now.store.labels.now node cell) }
        ensures listing_after { listing.new ≡ write listing.old at (label_line (asked_in self.now.store) self.now.store.labels.now node cell) }
    {
        if !self.store.is_filled(self.spot(node, cell)) {
            return at;
        }
        let mut words = [0u32; 68];
        let numbers = self.numbers(node, cell, &mut words);
        text::put_line(listing, at, b"label", TAB, numbers)
    }

    // Writes the lines of a node from byte `at` on, cells rising; the byte after them.
    fn put_node(&self, node: u32, listing: &mut [u8], at: usize) -> usize
        requires node_lt_nodes { node < self.now.store.request.nodes }
        requires node_in_bounds { at + length (node_lines (asked_in self.now.store) self.now.store.labels.now node) ≤ length listing.old }
        ensures value { result ≡ at + length (node_lines (asked_in self.now.store) self.now.store.labels.now node) }
        ensures listing_after { listing.new ≡ write listing.old at (node_lines (asked_in self.now.store) self.now.store.labels.now node) }
    {
        let mut a = at;
        for c in 0..self.store.cells {
            a = self.put_label(node, c, listing, a);
        }
        a
    }

    // Writes the lines of all nodes from byte `at` on, nodes rising.
    fn put_labels(&self, listing: &mut [u8], at: usize)
        requires { at + length (label_lines (asked_in self.now.store) self.now.store.labels.now) ≤ length listing.old }
        ensures { listing.new ≡ write listing.old at (label_lines (asked_in self.now.store) self.now.store.labels.now) }
    {
        let mut a = at;
        for v in 0..self.store.request.nodes {
            a = self.put_node(v, listing, a);
        }
    }

    // Prints the listing at the front of the lent bytes: how many there are, none where it is longer than they are.
    pub(crate) fn print(&self, tries: u32, listing: &mut [u8]) -> Option<u32>
        ensures value { result ≡ printed_of (listing_text (asked_in self.now.store) self.now.store.labels.now tries) (length listing.old) }
        ensures listing_after { listing.new ≡ bytes_after (listing_text (asked_in self.now.store) self.now.store.labels.now tries) listing.old }
    {
        let lines = self.measure_lines();
        let cover = [lines.filled, tries];
        let n = 6 + text::widths(&cover) + lines.bytes;
        if listing.len() < n {
            return None;
        }
        let at = text::put_line(listing, 0, b"cover", TAB, &cover);
        self.put_labels(listing, at);
        Some(n as u32)
    }
}
