// The seat for callers in C and in languages that call C: numbers, and bytes by pointer and length. Each export checks
// every number that comes. What a caller owes is what a reference of Rust's owes: a pointer that is not null, that has
// as many readable or writable elements as its length says, that is aligned for them, and that no other argument of
// the same call overlaps where one of the two is written.
#![tactic(auto)]

pub mod encode;
pub mod page;
pub mod read;
pub mod requests;
pub mod ring;
