// Questions about a site: a radio's number, its neighbour count, whether two radios are linked, which stands first in the order, a radio's
// connected core, the backbone. Each puts its questions in document 01's order; refused, it gives the number and 0 and leaves the answer
// table as it was. Links, numbers and order are only read.
#![tactic(auto)]

pub mod backbone;
pub mod cores;
pub mod radios;
