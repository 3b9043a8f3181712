// Numbers: sums that stop at the largest of their type, and choices.
ghost use Rattle.std.specs.Prelude.{◌≡◌, min, max, cond};
ghost use Rattle.types.specs.Limits.{sat64, sat32};

// The sum, at most the largest number.
pub fn saturating_add(a: u64, b: u64) -> u64
    ensures { result ≡ sat64 a b }
{
    a.saturating_add(b)
}

// One more, at most the largest number.
pub fn saturating_next(n: u32) -> u32
    ensures { result ≡ sat32 n 1 }
{
    n.saturating_add(1)
}

// One of two numbers.
pub fn chosen(first: bool, a: u64, b: u64) -> u64
    ensures { result ≡ cond first a b }
{
    if first { a } else { b }
}

// The shorter of two lengths.
pub fn shorter(a: usize, b: usize) -> usize
    ensures { result ≡ min a b }
{
    a.min(b)
}

// The larger of two numbers.
pub fn larger(a: u64, b: u64) -> u64
    ensures { result ≡ max a b }
{
    a.max(b)
}

// A u32 as a u64.
pub fn wide(x: u32) -> u64
    ensures { result ≡ x }
{
    u64::from(x)
}
