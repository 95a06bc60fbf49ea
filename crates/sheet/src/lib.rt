// The track sheet: read from bytes, and written to bytes.
#![tactic(auto)]

mod reader;
mod writer;

pub use reader::read;
use request::Request;
pub use writer::write;

// A sheet has at most so many bytes.
pub const MOST_BYTES: usize = 8192;

// What was read of a sheet: its request, and how many words its arcs take.
#[derive(Clone, Copy)]
pub struct Reading {
    pub request: Request,
    pub words: u32,
}
