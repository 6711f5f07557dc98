// Leaf code on lent tables: tables of both widths are filled, copied and compared; the signed step is added to numbers, and the
// greatest is found; questions 1 and 2 are put; a site is cleared. Each function says what it does with every length and every value
// that it is lent.
#![tactic(auto)]

pub mod clear;
pub mod fill;
pub mod numbers;
pub mod sizes;
pub mod steps;
