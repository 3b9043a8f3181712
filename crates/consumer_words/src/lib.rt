// The delivery state of one consumer in one lent list of words: which offsets are settled, who holds which until when, how often each was
// handed out, and where the next checkpoint goes. The words lie where the caller has them, and a refusal leaves every one of them.
#![tactic(auto)]

pub mod in_words;
pub mod layout;
pub mod reads;
// The tests of the calls, and what an answer of the lease table becomes.
pub mod steps;
