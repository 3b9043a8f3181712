// Where each part of a consumer lies among its words: the cursor's words, the lease table's, then the consumer's own; specs/Layout.antt
// says the same of the list. Each part begins where the one before it ends.
use types::limits::WORKERS;

// The cursor, by its own layout.
pub const CURSOR: usize = 0;

// The lease table, by its own layout.
pub const TABLE: usize = CURSOR + cursor::layout::WORDS;

// The consumer's own: the ceiling, the next group's number and block, and the length of the area.
pub const CEILING: usize = TABLE + lease::layout::WORDS;

pub const NEXT_NUMBER: usize = CEILING + 1;

pub const NEXT_BLOCK: usize = NEXT_NUMBER + 1;

pub const AREA_LEN: usize = NEXT_BLOCK + 1;

// The delivery settings. A truth is 0 or another number.
pub const MAX_DELIVER: usize = AREA_LEN + 1;

pub const ALLOW_UNLIMITED: usize = MAX_DELIVER + 1;

pub const THRESHOLD: usize = ALLOW_UNLIMITED + 1;

pub const BACKOFF_LEN: usize = THRESHOLD + 1;

pub const BACKOFFS: usize = BACKOFF_LEN + 1;

// The rights, a word for each worker.
pub const RIGHTS: usize = BACKOFFS + 16;

// The hours: whether there are any, the shift, and the seven days.
pub const HOURS_GIVEN: usize = RIGHTS + WORKERS;

pub const SHIFT: usize = HOURS_GIVEN + 1;

pub const DAYS: usize = SHIFT + 1;

// All of them. What a checkpoint keeps while it is written can be added after them.
pub const WORDS: usize = DAYS + 7;
