// Lines out of a lent buffer. `take_line` finds the next line among the bytes that are there, and says where more are needed;
// `refill` reads them. A line that doesn't fit the buffer is skipped up to its end and answered as too long.
ghost use Rattle.std.specs.Prelude.{◌≡◌, ◌-◌, ◌≤◌, length, take, drop, get_or};
ghost use Rattle.text.specs.Lines.{Within, nothing, line_at, after, last_line, for_more, Took, Shortened, Refilled};

use crate::words::find;
use std::io::Read;

// The bytes of the buffer that are still to be taken: from a place up to another. `long`: they go on with a line that was too
// long, which began with this byte. `ended`: nothing comes behind them.
#[derive(Clone, Copy)]
pub struct Input {
    pub from: usize,
    pub to: usize,
    pub long: Option<u8>,
    pub ended: bool,
}

// What comes next: a line, from a place of the buffer up to another; a line that was too long, by its first byte; nothing until
// more is read; nothing at all.
#[derive(Clone, Copy)]
pub enum Found {
    Line { from: usize, to: usize },
    TooLong { first: u8 },
    More,
    End,
}

#[derive(Clone, Copy)]
pub struct Taken {
    pub found: Found,
    pub input: Input,
}

// Before anything is read.
pub fn nothing_read() -> Input
    ensures { result ≡ nothing }
{
    Input {
        from: 0,
        to: 0,
        long: None,
        ended: false,
    }
}

// The line that ends at a place.
fn line_at(input: Input, to: usize) -> Found
    ensures { result ≡ line_at input to }
{
    match input.long {
        Some(first) => Found::TooLong { first },
        None => Found::Line {
            from: input.from,
            to,
        },
    }
}

// What is left behind a line.
fn behind(input: Input, from: usize) -> Input
    ensures { result ≡ after input from }
{
    Input {
        from,
        long: None,
        ..input
    }
}

// The line that no line end closes, where nothing comes behind it.
fn last_line(input: Input) -> Taken
    ensures { result ≡ last_line input }
{
    if input.from < input.to || input.long.is_some() {
        return Taken {
            found: line_at(input, input.to),
            input: behind(input, input.to),
        };
    }
    Taken {
        found: Found::End,
        input,
    }
}

// What more is read behind: the line so far, or nothing of one that is too long.
fn for_more(input: Input, len: usize, first: u8) -> Input
    requires { input.from ≤ input.to }
    ensures { result ≡ for_more input len first }
{
    if input.long.is_none() && input.to - input.from < len {
        return input;
    }
    Input {
        from: 0,
        to: 0,
        long: Some(input.long.unwrap_or(first)),
        ..input
    }
}

// The byte at a place, 0 past the end.
fn byte_at(buf: &[u8], i: usize) -> u8
    ensures { result ≡ get_or buf.now i 0 }
{
    buf.get(i).copied().unwrap_or(0)
}

// The next line, and what is left behind it.
pub fn take_line(buf: &[u8], input: Input) -> Taken
    requires { Within (length buf.now) input }
    ensures { Took buf.now input result }
{
    let from = input.from;
    let to = input.to;
    let n = find(&buf[from..to], 0, b'\n');
    if n < to - from {
        return Taken {
            found: line_at(input, from + n),
            input: behind(input, from + n + 1),
        };
    }
    if input.ended {
        return last_line(input);
    }
    Taken {
        found: Found::More,
        input: for_more(input, buf.len(), byte_at(buf, from)),
    }
}

// How many bytes a line has without the carriage return that may stand before its line end.
pub fn without_return(line: &[u8]) -> usize
    ensures { Shortened line.now result }
{
    match line {
        [rest @ .., b'\r'] => rest.len(),
        _ => line.len(),
    }
}

// Reads once, and answers how many bytes came: none where the read fails.
fn read_some<R: Read>(source: &mut R, buf: &mut [u8]) -> usize
    ensures { result ≤ length buf.old }
{
    source.read(buf).unwrap_or(0)
}

// Copies the bytes from a place up to another to the front, if they aren't there: all at once, where none of them stands where
// another one goes.
fn to_front(buf: &mut [u8], from: usize, to: usize)
    requires { (from ≤ to) × (to ≤ length buf.old) }
    ensures { take (to - from) buf.new ≡ drop from (take to buf.old) }
{
    let count = to - from;
    if count <= from {
        let (front, rest) = buf.split_at_mut(from);
        front[..count].copy_from_slice(&rest[..count]);
    } else if from > 0 {
        buf.copy_within(from..to, 0);
    }
}

// Reads once, behind the bytes that are still to be taken, which go to the front first. Where nothing comes, the input has ended.
pub fn refill<R: Read>(source: &mut R, buf: &mut [u8], input: Input) -> Input
    requires { Within (length buf.old) input }
    ensures { Refilled buf.old input result buf.new }
{
    to_front(buf, input.from, input.to);
    let kept = input.to - input.from;
    let more = read_some(source, &mut buf[kept..]);
    Input {
        from: 0,
        to: kept + more,
        ended: more == 0,
        ..input
    }
}
