// Reads an image into a site's tables, or says the number of an image alone. Whether the links and the order that it lists make a sound
// site, and its numbers, is decided in place, over scratch of 4 KiB and no second links table; nothing is written before every question got
// yes.
#![tactic(auto)]

mod blocks;
pub mod reader;
mod site;
mod source;
mod table;
