// A checkpoint of a consumer that is one lent list of words, block write by block write: the record's own numbers lie after the
// consumer's words, and its payload is lent beside them, for as long as the checkpoint goes.
#![tactic(auto)]

pub mod in_words;
pub mod layout;
