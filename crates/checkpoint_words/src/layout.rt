// Where each part of a writing record lies among its words: the consumer's words, then how many blocks are written and the lengths of the
// two snapshots in the payload; specs/Layout.antt says the same of the list.
pub const WRITTEN: usize = consumer_words::layout::WORDS;

pub const CURSOR_LEN: usize = WRITTEN + 1;

pub const ATTEMPT_LEN: usize = CURSOR_LEN + 1;

// All of them.
pub const WORDS: usize = ATTEMPT_LEN + 1;
