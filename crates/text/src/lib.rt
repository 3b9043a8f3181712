// Text for the programs: lines taken from a lent buffer that is filled from a reader (`lines`), the words and numbers of a
// line (`words`), answers gathered in a lent buffer that is written out when it is full (`output`), texts with numbers
// in them (`templates`), and failures told on standard error (`failures`).
#![tactic(auto)]

pub mod failures;
pub mod lines;
pub mod output;
pub mod templates;
pub mod words;
