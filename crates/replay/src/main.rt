// Runs a script of calls, with power failures, against a consumer and its journal. It reads lines from the file that its argument
// names, or from standard input, and writes an answer line for each; `script` has the lines, `printing` the answers, docs/REPLAY.md
// both. Lines that move a consumer in and out are understood where the environment has MOVING.
#![tactic(auto)]

mod blocks;
mod printing;
mod script;
mod session;

ghost use Rattle.std.specs.Prelude.{◌≡◌, length};
ghost use Rattle.replay.specs.Running.{Ready, Going};

use script::{Form, Line};
use session::Session;
use std::alloc::Global;
use std::fs::Files;
use std::io::{Error, Read, Stderr, Stdout};
use std::{env, fs, io};
use text::failures::fail;
use text::lines;
use text::lines::{Found, Input};
use text::output::Output;

// The input, what is being run, whether bad lines are told what they should be, and whether lines that move in and out are understood.
#[derive(Clone, Copy)]
struct State {
    input: Input,
    session: Session,
    told: bool,
    moving: bool,
}

// Does what a line asks, and puts its answer. Help is for whoever reads the answers: from there on bad lines are told.
fn answer(state: &mut State, line: Line, bytes: &[u8], area: &mut [u8], out: &mut Output)
    requires { Ready (length area.old) state.old.session }
    ensures session { Ready (length area.old) state.new.session }
    ensures input { state.new.input ≡ state.old.input }
{
    match line {
        Line::Nothing => {}
        Line::Bad(near) => {
            let form = if state.told { near } else { None };
            printing::print(out, printing::bad_line(), &[], area, &state.session, form);
        }
        Line::Asks(request) => {
            let mut list = [0u64; 3606];
            let said = session::act(&mut state.session, request, bytes, area, &mut list);
            let form = if state.told { Some(request.form) } else { None };
            printing::print(out, said, &list, area, &state.session, form);
            state.told = state.told || request.form == Form::Help;
        }
    }
}

// Answers the next line, and tells whether the input has ended. Before more is read, all answers are written out, so that whoever waits for
// them gets them.
fn next_line<R: Read>(
    source: &mut R,
    buf: &mut [u8],
    out: &mut Output,
    area: &mut [u8],
    bytes: &mut [u8],
    state: &mut State,
) -> bool
    requires { Going (length buf.old) (length area.old) state.old }
    ensures { Going (length buf.old) (length area.old) state.new }
{
    let taken = lines::take_line(buf, state.input);
    state.input = taken.input;
    match taken.found {
        Found::Line { from, to } => {
            let line = script::parse(&buf[from..to], state.moving, bytes);
            answer(state, line, bytes, area, out);
            false
        }
        Found::TooLong { first } => {
            answer(state, script::too_long(first), bytes, area, out);
            false
        }
        Found::More => {
            out.flush();
            state.input = lines::refill(source, buf, taken.input);
            false
        }
        Found::End => {
            out.flush();
            true
        }
    }
}

// Line by line up to the end. A proved loop has to end, so it makes at most so many turns that no run uses them up.
fn run<R: Read>(
    source: &mut R,
    buf: &mut [u8],
    out: &mut Output,
    area: &mut [u8],
    bytes: &mut [u8],
    state: &mut State,
)
    requires { Going (length buf.old) (length area.old) state.old }
{
    for _ in 0..u64::MAX {
        if next_line(source, buf, out, area, bytes, state) {
            return;
        }
    }
}

fn run_all<R: Read>(source: &mut R, told: bool, moving: bool, stdout: Stdout) {
    let mut buf = [0u8; 65536];
    let mut gathered = [0u8; 65536];
    let mut out = Output::new(stdout, &mut gathered);
    let mut area = [0u8; 65536];
    let mut bytes = [0u8; 65536];
    let mut state = State {
        input: lines::nothing_read(),
        session: session::nothing_started(),
        told,
        moving,
    };
    run(
        source, &mut buf, &mut out, &mut area, &mut bytes, &mut state,
    );
}

// Why a file can't be read, as that of a folder.
fn unreadable<R: Read>(source: &mut R) -> Option<Error> {
    let mut none = [0u8; 1];
    source.read(&mut none[..0]).err()
}

// What a failure names: the file, or where its name is too long that it is the name.
fn told_as(path: &str) -> &str {
    if 4096 < path.len() {
        return "replay: the file's name";
    }
    path
}

// The script that the first argument names, whose bad lines are told.
fn run_file<R: Files>(
    rt: &R,
    alloc: Global,
    path: &str,
    moving: bool,
    stdout: Stdout,
    stderr: Stderr,
) -> io::Result<()> {
    let mut file = match fs::open(rt, path) {
        Ok(file) => file,
        Err(error) => return fail(stderr, alloc, told_as(path), error),
    };
    if let Some(error) = unreadable(&mut file) {
        return fail(stderr, alloc, path, error);
    }
    run_all(&mut file, true, moving, stdout);
    Ok(())
}

fn usage(stderr: Stderr) -> io::Result<()> {
    eprintln!(stderr;
        "usage: replay [FILE]    runs the script FILE, or the one on standard input; its line help prints all lines"
    )
}

fn main(rt: HostRuntime) -> io::Result<()> {
    let moving = env::var(&rt, "MOVING").is_ok();
    let mut args = env::args(&rt)?;
    args.next();
    let Some(path) = args.next() else {
        let mut stdin = rt.stdin();
        run_all(&mut stdin, false, moving, rt.stdout());
        return Ok(());
    };
    if args.next().is_some() {
        return usage(rt.stderr());
    }
    run_file(
        &rt,
        rt.alloc(),
        path.as_str(),
        moving,
        rt.stdout(),
        rt.stderr(),
    )
}
