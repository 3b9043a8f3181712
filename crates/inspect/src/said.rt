// What is printed of a block.
use text::output::Output;

// A text, in which each mark # stands for a number.
#[derive(Clone, Copy, PartialEq, Eq)]
pub struct Said {
    pub text: &'static [u8],
    pub numbers: [u64; 4],
}

impl Said {
    pub fn put(&self, out: &mut Output) {
        out.say(self.text, &self.numbers);
    }
}

// A text with at most two marks.
pub fn says(text: &'static [u8], first: u64, second: u64) -> Said {
    Said {
        text,
        numbers: [first, second, 0, 0],
    }
}

// A byte as a number, or 0 where there is none.
pub fn byte(bytes: &[u8], i: usize) -> u64 {
    bytes.get(i).copied().map_or(0, u64::from)
}
