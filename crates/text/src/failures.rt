// Failures, which the programs tell on standard error.
use std::alloc::Global;
use std::io::{Error, Result, Stderr};

// What failed, as the caller names it, a colon and the system's words for why, without their number.
pub fn fail(stderr: Stderr, alloc: Global, what: &str, error: Error) -> Result<()> {
    let told = format!(in alloc; "{error}")?;
    let words = told
        .as_str()
        .split_once(" (os error ")
        .map_or(told.as_str(), |(words, _)| words);
    eprintln!(stderr; "{what}: {words}")
}
