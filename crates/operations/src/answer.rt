// What an operation answers.
use answers::of_refusal;
use types::refusals::Refusal;

// Values or a refusal; None where the numbers of the list are no operation.
pub type Answer = Option<Result<Values, Refusal>>;

#[derive(Clone, Copy, Debug, PartialEq, Eq)]
pub enum Values {
    Zero,
    One(u64),
    Two(u64, u64),
    Three(u64, u64, u64),
}

// What an operation leaves, and what it answers.
#[derive(Clone, Copy)]
pub struct Done<T> {
    pub left: T,
    pub answer: Answer,
}

pub fn plain() -> Answer {
    Some(Ok(Values::Zero))
}

pub fn value(n: u64) -> Answer {
    Some(Ok(Values::One(n)))
}

pub fn yes(holds: bool) -> Answer {
    value(u64::from(holds))
}

// 1 and the number, or 0 where there is none.
pub fn maybe(number: Option<u64>) -> Answer {
    match number {
        Some(n) => Some(Ok(Values::Two(1, n))),
        None => value(0),
    }
}

// How many numbers there are; then the refusal's number, 0 where nothing was refused, and its values or those of the outcome.
pub fn in_numbers(answer: Answer) -> [u64; 5] {
    match answer {
        None => [0, 0, 0, 0, 0],
        Some(Ok(Values::Zero)) => [1, 0, 0, 0, 0],
        Some(Ok(Values::One(a))) => [2, 0, a, 0, 0],
        Some(Ok(Values::Two(a, b))) => [3, 0, a, b, 0],
        Some(Ok(Values::Three(a, b, c))) => [4, 0, a, b, c],
        Some(Err(refusal)) => {
            let told = of_refusal(refusal);
            [told.1.saturating_add(1), told.0, told.2, told.3, 0]
        }
    }
}
