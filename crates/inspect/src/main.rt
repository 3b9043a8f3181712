// Prints what a file has, for people: the journals of consumers, a cursor snapshot or an attempt snapshot, as the first argument says.
// The first line is the verdict. The file is opened for reading and never changed. What can't be read is said on standard error.
#![tactic(auto)]

use facts::Layout;
use std::alloc::Global;
use std::env::VarError;
use std::fs::{File, Files};
use std::io::{Stderr, Stdout};
use std::{env, fs, io};
use text::failures::fail;
use text::output::Output;
use text::words::parse_number;

mod blocks;
mod facts;
mod faults;
mod files;
mod forms;
mod journals;
mod listing;
mod missed;
mod other;
mod places;
mod refusals;
mod said;
mod snapshots;

// What a file is to be, as the first argument names it.
#[derive(Clone, Copy, PartialEq, Eq)]
enum Kind {
    Journal,
    Cursor,
    Attempts,
}

// JOURNAL_NUMBER is no number.
#[derive(Clone, Copy)]
struct NoNumber;

fn usage(stderr: Stderr) -> io::Result<()> {
    stderr.write_all(
        b"usage: inspect journal FILE     a consumer's journal: what a restart finds, or why it is refused; then its blocks\n\
        \x20      inspect cursor FILE      a cursor snapshot: which offsets are settled\n\
        \x20      inspect attempts FILE    an attempt snapshot: how often each offset was handed out\n\
        It only reads. A program of this language has no exit status: a script looks at what is printed, which begins with\n\
        'a restart finds' or 'sound' where all is well. A line that begins with 'beware' wants a look before a restart:\n\
        \x20      inspect journal FILE >found; grep -q '^a restart finds' found && ! grep -q '^beware' found\n\
        \x20      inspect cursor FILE | grep -q '^sound'\n",
    )
}

// What a word names.
fn kind_of(word: &[u8]) -> Option<Kind> {
    match word {
        b"journal" => Some(Kind::Journal),
        b"cursor" => Some(Kind::Cursor),
        b"attempts" => Some(Kind::Attempts),
        _ => None,
    }
}

// Which journal is asked for by its number, in the environment's JOURNAL_NUMBER: none in particular where it isn't there. A snapshot has none.
fn number_asked(kind: Kind, word: Result<String, VarError>) -> Result<Option<u64>, NoNumber> {
    if kind != Kind::Journal {
        return Ok(None);
    }
    match word {
        Ok(word) if word.len() <= 32 => {
            let number = parse_number(word.as_bytes()).ok_or(NoNumber)?;
            Ok(Some(number))
        }
        Err(VarError::NotPresent) => Ok(None),
        _ => Err(NoNumber),
    }
}

fn no_number(stderr: Stderr) -> io::Result<()> {
    stderr.write_all(b"inspect: JOURNAL_NUMBER is no number of a journal\n")
}

// What a file has whose first bytes these are; there are more where it is longer than the buffer.
fn report(out: &mut Output, kind: Kind, bytes: &[u8], more: bool) {
    match kind {
        Kind::Journal if more => journals::oversized(out, bytes),
        Kind::Journal => journals::journal(out, bytes, Layout::SideBySide, &[0; 128]),
        _ if more => out.put(
            b"refused: it has more than 65536 bytes, and no snapshot has more than 2061\n",
        ),
        Kind::Cursor => snapshots::cursor(out, bytes),
        Kind::Attempts => snapshots::attempts(out, bytes),
    }
}

fn show(
    out: &mut Output,
    kind: Kind,
    path: &str,
    file: &mut File,
    alloc: Global,
    stderr: Stderr,
) -> io::Result<()> {
    let mut buf = [0u8; 65536];
    let read = files::read_full(file, &mut buf);
    let n = read.len;
    match files::read_on(file, n == 65536, read.failed) {
        Ok(more) => report(out, kind, &buf[..n], more),
        Err(error) => return fail(stderr, alloc, path, error),
    }
    Ok(())
}

// Whether a file can be one of several journals: it is to be a journal, and one is asked for by its number, or it is in sectors.
fn has_journals(kind: Kind, asked: Option<u64>, file: &File) -> bool {
    kind == Kind::Journal && (asked.is_some() || files::is_in_sectors(file))
}

// What a failure names: the file, or where its name is too long that it is the name.
fn told_as(path: &str) -> &str {
    if 4096 < path.len() {
        return "inspect: the file's name";
    }
    path
}

fn inspect<R: Files<File = File>>(
    rt: &R,
    kind: Kind,
    asked: Option<u64>,
    path: &str,
    alloc: Global,
    stdout: Stdout,
    stderr: Stderr,
) -> io::Result<()> {
    let mut file = match fs::open(rt, path) {
        Ok(file) => file,
        Err(error) => return fail(stderr, alloc, told_as(path), error),
    };
    let mut gathered = [0u8; 65536];
    let mut out = Output::new(stdout, &mut gathered);
    let done = if has_journals(kind, asked, &file) {
        files::show_journal(&mut out, asked, path, &mut file, alloc, stderr)
    } else {
        show(&mut out, kind, path, &mut file, alloc, stderr)
    };
    out.flush();
    done
}

fn main(rt: HostRuntime) -> io::Result<()> {
    let alloc = rt.alloc();
    let args: Vec<String> = env::args(&rt)?.collect(alloc)?;
    let [_, word, path] = args.as_slice() else {
        return usage(rt.stderr());
    };
    let Some(kind) = kind_of(word.as_bytes()) else {
        return usage(rt.stderr());
    };
    let Ok(asked) = number_asked(kind, env::var(&rt, "JOURNAL_NUMBER")) else {
        return no_number(rt.stderr());
    };
    inspect(
        &rt,
        kind,
        asked,
        path.as_str(),
        alloc,
        rt.stdout(),
        rt.stderr(),
    )
}
