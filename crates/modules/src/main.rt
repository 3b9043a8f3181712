// Runs a list of operations on the ported modules. It reads the list from standard input, at most 4,096 operations of it, and answers
// each with a line of numbers, the last of them the digest of the state; docs/ORACLE.md has the lines.
#![tactic(auto)]

ghost use Rattle.std.specs.Prelude.{◌≤◌, ◌+◌, length};
ghost use Rattle.modules.specs.Reading.{Going};

use std::io::Stdin;
use text::lines::{Found, Input};
use text::output::Output;
use text::{lines, words};

// The input, and how many numbers of operations were read.
#[derive(Clone, Copy)]
struct Reading {
    input: Input,
    n: usize,
}

// Whether a line asks for nothing: it is empty, or begins with #.
fn is_nothing(line: &[u8]) -> bool {
    match line {
        [] | [b'#', ..] => true,
        _ => false,
    }
}

// Takes a line into the next five numbers, which are 0, as far as the list goes: its name, which is for the reader alone, an
// operation's number and up to four more. Operation 0 is none: a line that is none becomes that.
fn take(line: &[u8], ops: &mut [u64], n: usize) -> usize
    requires { n ≤ length ops.old }
    ensures { result ≤ length ops.old }
{
    if is_nothing(line) || ops.len() - n < 5 {
        return n;
    }
    let end = n + 5;
    match words::parse_numbers(line, 0, &mut ops[n..end]) {
        Some(0..=5) => {}
        _ => ops[n] = 0,
    }
    end
}

// Takes the next line in, or reads more, and tells whether the input has ended. Of a line that is too long for the buffer the first byte
// is taken: it is none, or a comment.
fn next_line(stdin: &mut Stdin, buf: &mut [u8], ops: &mut [u64], reading: &mut Reading) -> bool
    requires { Going (length buf.old) (length ops.old) reading.old }
    ensures { Going (length buf.old) (length ops.old) reading.new }
{
    let taken = lines::take_line(buf, reading.input);
    reading.input = taken.input;
    match taken.found {
        Found::Line { from, to } => reading.n = take(&buf[from..to], ops, reading.n),
        Found::TooLong { first } => reading.n = take(&[first], ops, reading.n),
        Found::More => reading.input = lines::refill(stdin, buf, taken.input),
        Found::End => return true,
    }
    false
}

// Reads the list. A proved loop has to end, so it makes at most so many turns that no run uses them up.
fn read(stdin: &mut Stdin, buf: &mut [u8], ops: &mut [u64]) -> usize
    ensures { result ≤ length ops.old }
{
    let mut reading = Reading {
        input: lines::nothing_read(),
        n: 0,
    };
    for _ in 0..u64::MAX {
        if next_line(stdin, buf, ops, &mut reading) {
            break;
        }
    }
    reading.n
}

// The line of an answer: the first `count` of its number and three values, and the digest.
fn put_answer(out: &mut Output, answer: &[u64; 6]) {
    let count = answer[0];
    if count == 0 {
        out.put(b"bad\n");
        return;
    }
    out.put_number(answer[1]);
    for i in 2..5 {
        if (i as u64) <= count {
            out.say(b" #", &[answer[i]]);
        }
    }
    out.say(b" #\n", &[answer[5]]);
}

// Prints all answers, which have six numbers each.
fn print(out: &mut Output, answers: &[u64]) {
    let (answers, _) = answers.as_chunks::<6>();
    for answer in answers {
        put_answer(out, answer);
    }
    out.flush();
}

fn main(rt: HostRuntime) {
    let mut stdin = rt.stdin();
    let mut buf = [0u8; 65536];
    let mut ops = [0u64; 20480];
    let mut answers = [0u64; 24576];
    let n = read(&mut stdin, &mut buf, &mut ops);
    let m = operations::ninotskev_operations(&ops[0..n], &mut answers);
    print(&mut Output::new(rt.stdout(), &mut buf), &answers[0..m]);
}
