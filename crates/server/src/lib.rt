// What a Rust server calls: a machine, whose state stays in one place. Calls come as numbers (`kinds`), what each makes is said of the
// parts that it is lent (`in_place`), of a start by value (`transitions`), and the exported functions are thin over that (`calls`).
// Before any of them a server asks whether it was built for this library (`abi`).
#![tactic(auto)]

pub mod abi;
pub mod calls;
pub mod in_place;
pub mod kinds;
pub mod transitions;
