// The lines that `replay` reads: every line is of one of the forms of a table, with its numbers, or asks for nothing, or is bad.
ghost use Rattle.std.specs.Prelude.{◌≤◌, length};

use text::{lines, words};

// The forms that a line can have.
#[derive(Clone, Copy, PartialEq, Eq)]
pub enum Form {
    Claim,
    Ack,
    Term,
    Nack,
    NackAfter,
    Progress,
    Commit,
    Waiting,
    Begin,
    Step,
    StepOn,
    Restart,
    RestartOn,
    Start,
    CutOld,
    CutNew,
    CutTorn,
    State,
    Poke,
    Peek,
    Worker,
    Rights,
    View,
    Open,
    Nearest,
    Plan,
    Hours,
    HoursNone,
    Help,
    Export,
    Import,
}

// An entry of a table of forms: of each stand its words, then a colon and what it is for. Words in capitals are numbers, and of the last
// there are any number where it ends in dots.
#[derive(Clone, Copy)]
pub struct Entry {
    pub form: Form,
    pub text: &'static [u8],
}

// The table. Forms that begin alike stand together, and the first says what they are.
pub const FORMS: [Entry; 29] = [
    Entry {
        form: Form::Claim,
        text: b"claim OFFSET NOW: hands an offset out",
    },
    Entry {
        form: Form::Ack,
        text: b"ack OFFSET GENERATION: settles an offset, by the token that it was handed out with",
    },
    Entry {
        form: Form::Term,
        text: b"term OFFSET GENERATION: the same, of a job that is given up",
    },
    Entry {
        form: Form::Nack,
        text: b"nack OFFSET GENERATION NOW: gives an offset back, to wait as the backoffs say; a DELAY may stand behind",
    },
    Entry {
        form: Form::NackAfter,
        text: b"nack OFFSET GENERATION NOW DELAY: gives an offset back, to wait so long",
    },
    Entry {
        form: Form::Progress,
        text: b"progress OFFSET GENERATION NOW: holds an offset longer",
    },
    Entry {
        form: Form::Commit,
        text: b"commit BOUND: settles every offset below it",
    },
    Entry {
        form: Form::Waiting,
        text: b"waiting NOW: the offsets that wait to be handed out again",
    },
    Entry {
        form: Form::Begin,
        text: b"begin: begins a checkpoint",
    },
    Entry {
        form: Form::Step,
        text: b"step: writes its next block; BYTES may stand behind",
    },
    Entry {
        form: Form::StepOn,
        text: b"step BYTES: the same, lent so much of the journal",
    },
    Entry {
        form: Form::Restart,
        text: b"restart: restarts from the journal; BYTES may stand behind",
    },
    Entry {
        form: Form::RestartOn,
        text: b"restart BYTES: restarts from so much of the journal",
    },
    Entry {
        form: Form::Start,
        text: b"start LIMIT UNLIMITED THRESHOLD VISIBILITY CAP BYTES BACKOFF...: a fresh consumer and its journal; UNLIMITED is 0 or 1, LIMIT and THRESHOLD are at most 4294967295",
    },
    Entry {
        form: Form::CutOld,
        text: b"cut old: the power fails in the next step, and its block stays as it was; or cut new, or cut torn",
    },
    Entry {
        form: Form::CutNew,
        text: b"cut new: the same, and the block is written",
    },
    Entry {
        form: Form::CutTorn,
        text: b"cut torn: the same, and the block has a wrong check",
    },
    Entry {
        form: Form::State,
        text: b"state: all of the state",
    },
    Entry {
        form: Form::Poke,
        text: b"poke BLOCK BYTE VALUE: puts a byte into the journal",
    },
    Entry {
        form: Form::Peek,
        text: b"peek BLOCK: the bytes of a block",
    },
    Entry {
        form: Form::Worker,
        text: b"worker WORKER: who makes the calls that follow",
    },
    Entry {
        form: Form::Rights,
        text: b"rights WORKER MASK: what a worker, 0 to 7, may do from the next start or restart on; MASK is 0 to 255",
    },
    Entry {
        form: Form::View,
        text: b"view OFFSET NOW: how an offset stands",
    },
    Entry {
        form: Form::Open,
        text: b"open FROM TO ROOM: the stretches from one offset up to another that are not settled; ROOM for them is 0 to 256",
    },
    Entry {
        form: Form::Nearest,
        text: b"nearest OFFSET: the first offset from there on that is not settled",
    },
    Entry {
        form: Form::Plan,
        text: b"plan ROOM OFFSET...: which of up to 128 offsets are settled; ROOM for the answers is 0 to 256",
    },
    Entry {
        form: Form::Hours,
        text: b"hours SHIFT MON TUE WED THU FRI SAT SUN: the opening hours from the next start or restart on; or hours none",
    },
    Entry {
        form: Form::HoursNone,
        text: b"hours none: no opening hours from the next start or restart on",
    },
    Entry {
        form: Form::Help,
        text: b"help: these lines; behind it a bad line is told what it should be",
    },
];

// The forms that move in and out, which help doesn't list; the last two words of `import` are bytes.
const MOVES: [Entry; 2] = [
    Entry {
        form: Form::Export,
        text: b"export: the snapshots of the cursor and of all counts, in hexadecimal",
    },
    Entry {
        form: Form::Import,
        text: b"import GENERATION CURSOR ATTEMPTS: a consumer with what two snapshots have, and its journal anew; bytes are lower-case hexadecimal digits, - for none",
    },
];

// How many numbers of a line are kept: a plan has as many, its room and 128 offsets.
pub const NUMBERS: usize = 129;

// What a line of a form asks: how many numbers it has, and the first of them, 0 where it has fewer. Those of an import are its first
// generation and how many bytes each of its two words is.
#[derive(Clone, Copy)]
pub struct Request {
    pub form: Form,
    pub count: usize,
    pub numbers: [u64; NUMBERS],
}

// A line: one that asks for nothing; a bad one, with the first form that begins as it does, if there is one; or one of a form.
#[derive(Clone, Copy)]
pub enum Line {
    Nothing,
    Bad(Option<Form>),
    Asks(Request),
}

// What the table says of a form.
pub fn text_of(form: Form) -> &'static [u8] {
    for entry in &FORMS {
        if entry.form == form {
            return entry.text;
        }
    }
    for entry in &MOVES {
        if entry.form == form {
            return entry.text;
        }
    }
    b""
}

// Whether a line asks for nothing: it is empty, or begins with #.
fn is_nothing(line: &[u8]) -> bool {
    match line {
        [] | [b'#', ..] => true,
        _ => false,
    }
}

// Where the name of a form ends: before the space in front of its first number, or at its end.
fn name_end(form: &[u8]) -> usize
    ensures { result ≤ length form.now }
{
    match form.iter().position(|c| c.is_ascii_uppercase()) {
        Some(i) => i.saturating_sub(1),
        None => form.len(),
    }
}

// Whether a form is one with this name and so many numbers.
fn is_form(form: &[u8], name: &[u8], n: usize) -> bool {
    let end = name_end(form);
    if !words::same(&form[..end], name) {
        return false;
    }
    let takes = form[end..].iter().filter(|c| **c == b' ').count();
    if form.ends_with(b"...") {
        takes <= n.saturating_add(1)
    } else {
        takes == n
    }
}

// The words of an entry.
fn words_of(entry: Entry) -> &'static [u8] {
    let end = words::find(entry.text, 0, b':');
    &entry.text[..end]
}

// The first form of the table with this name and so many numbers.
fn form_of(name: &[u8], n: usize) -> Option<Form> {
    for entry in &FORMS {
        if is_form(words_of(*entry), name, n) {
            return Some(entry.form);
        }
    }
    None
}

// The first form of the table that begins with this word.
fn form_near(word: &[u8]) -> Option<Form> {
    for entry in &FORMS {
        let form = words_of(*entry);
        if words::same(&form[..words::word_end(form, 0)], word) {
            return Some(entry.form);
        }
    }
    None
}

// A line that was too long: it asks for nothing where it begins with #.
pub fn too_long(first: u8) -> Line {
    if first == b'#' {
        return Line::Nothing;
    }
    Line::Bad(None)
}

// A line of a name with so many numbers behind it, as far as they are kept. `word` is its first word.
fn line_of(name: &[u8], word: &[u8], count: usize, numbers: [u64; NUMBERS]) -> Line {
    match form_of(name, count) {
        Some(form) => Line::Asks(Request {
            form,
            count,
            numbers,
        }),
        None => Line::Bad(form_near(word)),
    }
}

// An import from this generation of the bytes that two words are, which go into a lent list, one behind the other.
fn import_of(generation: u64, cursor: &[u8], attempts: &[u8], bytes: &mut [u8]) -> Option<Request> {
    let first = words::parse_bytes(cursor, bytes)?;
    if bytes.len() < first {
        return None;
    }
    let second = words::parse_bytes(attempts, &mut bytes[first..])?;
    let mut numbers = [0u64; NUMBERS];
    numbers[0] = generation;
    numbers[1] = first as u64;
    numbers[2] = second as u64;
    Some(Request {
        form: Form::Import,
        count: 3,
        numbers,
    })
}

// A line that begins with the word `import`, which ends at a place: a number and two words stand behind it.
fn read_import(line: &[u8], end: usize, bytes: &mut [u8]) -> Option<Request> {
    let len = line.len();
    if len <= end {
        return None;
    }
    let from = end + 1;
    let middle = words::word_end(line, from);
    if len <= middle {
        return None;
    }
    let generation = words::parse_number(&line[from..middle])?;
    let second = middle + 1;
    let last = words::word_end(line, second);
    if len <= last {
        return None;
    }
    import_of(generation, &line[second..last], &line[last + 1..], bytes)
}

// A line that begins with the word `export`: nothing stands behind it.
fn read_export(line: &[u8]) -> Option<Request> {
    if !words::same(line, b"export") {
        return None;
    }
    Some(Request {
        form: Form::Export,
        count: 0,
        numbers: [0; NUMBERS],
    })
}

// The words of a line. Its name is its first word, where numbers alone stand behind it, and else the whole line.
fn read(line: &[u8]) -> Line {
    if is_nothing(line) {
        return Line::Nothing;
    }
    let end = words::word_end(line, 0);
    let word = &line[..end];
    let mut numbers = [0u64; NUMBERS];
    match words::parse_numbers(line, 0, &mut numbers) {
        Some(n) => line_of(word, word, n, numbers),
        None => line_of(line, word, 0, [0; NUMBERS]),
    }
}

// What stands behind the word of a form that moves in or out, or a line that is none and begins so.
fn moving_line(form: Form, request: Option<Request>) -> Line {
    match request {
        Some(request) => Line::Asks(request),
        None => Line::Bad(Some(form)),
    }
}

// The words of a line that may move in or out.
fn read_moving(line: &[u8], bytes: &mut [u8]) -> Line {
    let end = words::word_end(line, 0);
    match &line[..end] {
        b"import" => moving_line(Form::Import, read_import(line, end, bytes)),
        b"export" => moving_line(Form::Export, read_export(line)),
        _ => read(line),
    }
}

// A line, without the carriage return that may stand before its line end; it may move in or out where that is asked for. The bytes of an
// import go into a lent list.
pub fn parse(line: &[u8], moving: bool, bytes: &mut [u8]) -> Line {
    let line = &line[..lines::without_return(line)];
    if moving {
        return read_moving(line, bytes);
    }
    read(line)
}
