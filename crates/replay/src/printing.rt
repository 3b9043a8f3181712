// The answer lines: the text of each answer, with its numbers, and their print.
use crate::script;
use crate::script::Form;
use crate::session::Session;
use answers::Numbers;
use text::output::Output;

// The places of a list that the bytes of an export take: the cursor's first, of which there are at most so many, and behind those the counts'.
pub const CURSOR_PLACES: usize = 2061;

pub const ATTEMPT_PLACES: usize = 1545;

// What stands behind the text of an answer: nothing; the first places of the list, as the waiting list, as stretches, as the answers of a
// plan; the snapshots of an export, of so many bytes each; the block that begins at a place; the state; what a bad line should be; help.
#[derive(Clone, Copy)]
pub enum Then {
    Nothing,
    Waiting(usize),
    Stretches(usize),
    Plan(usize),
    Snapshots { cursor: usize, attempts: usize },
    Block { from: usize },
    State,
    Expected,
    Help,
}

// An answer: a text, in which each mark # stands for a number, and what stands behind it.
#[derive(Clone, Copy)]
pub struct Said {
    pub text: &'static [u8],
    pub numbers: [u64; 4],
    pub then: Then,
}

impl Said {
    pub fn then(self, then: Then) -> Said {
        Said { then, ..self }
    }
}

fn says(text: &'static [u8], numbers: [u64; 4]) -> Said {
    Said {
        text,
        numbers,
        then: Then::Nothing,
    }
}

pub fn plain(text: &'static [u8]) -> Said {
    says(text, [0; 4])
}

pub fn with(text: &'static [u8], n: u64) -> Said {
    says(text, [n, 0, 0, 0])
}

// A call that can't be made where it stands.
pub fn not_now() -> Said {
    plain(b"not now\n")
}

// A line that no call is.
pub fn bad_line() -> Said {
    plain(b"bad line").then(Then::Expected)
}

// A refusal: its number and values. 255 is no refusal's: the call can't be made where it stands.
fn refusal(code: Numbers) -> Said {
    if code.0 == 255 {
        return not_now();
    }
    match code.1 {
        0 => with(b"refused #\n", code.0),
        1 => says(b"refused # #\n", [code.0, code.2, 0, 0]),
        _ => says(b"refused # # #\n", [code.0, code.2, code.3, 0]),
    }
}

// An answer in numbers: a refusal, or what is said where nothing was refused.
pub fn unless_refused(code: Numbers, said: Said) -> Said {
    if code.0 != 0 {
        return refusal(code);
    }
    said
}

// One of two texts, by a bit.
fn either(bit: u64, zero: &'static [u8], one: &'static [u8]) -> &'static [u8] {
    if bit == 0 { zero } else { one }
}

// The text of a view, by how many numbers it has. A supervisor is also told what is absent of a settled offset.
fn view_text(count: u64, standing: u64, supervisor: bool) -> &'static [u8] {
    match (count, standing) {
        (5, 1) => b"view held # # # #\n",
        (5, _) => b"view waiting # # # #\n",
        (2, _) => b"view waiting # none none none\n",
        _ if supervisor => b"view settled none none none none\n",
        (_, 0) => b"view settled\n",
        (_, 1) => b"view held\n",
        _ => b"view waiting\n",
    }
}

// What is shown of an offset.
fn view_said(code: Numbers, supervisor: bool) -> Said {
    let text = view_text(code.1, code.2, supervisor);
    says(text, [code.3, code.4, code.5, code.6])
}

// What a call of a form answered, in numbers; `offset` is the one that was claimed.
pub fn call_said(form: Form, offset: u64, code: Numbers, supervisor: bool) -> Said {
    let said = match form {
        Form::Claim => {
            let text = either(code.4, b"deliver # # #\n", b"deadletter # # #\n");
            says(text, [offset, code.2, code.3, 0])
        }
        Form::Ack | Form::Term => plain(b"settled\n"),
        Form::Nack | Form::NackAfter => with(b"requeued #\n", code.2),
        Form::Progress => with(b"extended #\n", code.2),
        Form::Commit => plain(either(code.2, b"unchanged\n", b"committed\n")),
        Form::Waiting => plain(b"waiting").then(Then::Waiting(code.1 as usize)),
        Form::View => view_said(code, supervisor),
        Form::Open => plain(b"open").then(Then::Stretches(code.1 as usize)),
        Form::Nearest => with(b"nearest #\n", code.2),
        Form::Begin => with(b"begun #\n", code.2),
        Form::Step | Form::StepOn => with(either(code.3, b"wrote #\n", b"done #\n"), code.2),
        _ => plain(b"restarted\n"),
    };
    unless_refused(code, said)
}

// What a plan of n offsets answered: the number of its looks.
pub fn plan_said(code: Numbers, n: usize) -> Said {
    let said = if n == 0 {
        with(b"plan # none\n", code.2)
    } else {
        with(b"plan #", code.2).then(Then::Plan(n))
    };
    unless_refused(code, said)
}

// The first n entries of a list, and the line's end.
fn waiting(out: &mut Output, list: &[u64], n: usize) {
    for x in list.iter().take(n) {
        shown::with(out, b" ", *x);
    }
    out.put(b"\n");
}

// The stretches whose numbers are the first n of a list, and the line's end.
fn stretches(out: &mut Output, list: &[u64], n: usize) {
    shown::or_none(out, n);
    let places = n.min(list.len());
    for i in 0..places / 2 {
        shown::before(out, i);
        out.put_number(list[2 * i]);
        shown::with(out, b"-", list[2 * i + 1]);
    }
    out.put(b"\n");
}

// The first n entries of a list, with commas between them, and the line's end.
fn plan(out: &mut Output, list: &[u64], n: usize) {
    for (i, x) in list.iter().take(n).enumerate() {
        shown::before(out, i);
        out.put_number(*x);
    }
    out.put(b"\n");
}

// The hexadecimal digits of n entries of a list, from a place on.
fn bytes(out: &mut Output, list: &[u64], from: usize, n: usize) {
    for x in list.iter().skip(from).take(n) {
        out.put_hex((*x % 256) as u8);
    }
}

// The two snapshots of an export, of so many bytes, and the line's end.
fn snapshots(out: &mut Output, list: &[u64], cursor: usize, attempts: usize) {
    bytes(out, list, 0, cursor);
    out.put(b" ");
    bytes(out, list, CURSOR_PLACES, attempts);
    out.put(b"\n");
}

// The hexadecimal digits of the block that begins at a place, and the line's end.
fn block(out: &mut Output, area: &[u8], from: usize) {
    for byte in area.iter().skip(from).take(512) {
        out.put_hex(*byte);
    }
    out.put(b"\n");
}

// The end of a bad line's answer: the form that it should have had, where that is known and to be told.
fn expected(out: &mut Output, form: Option<Form>) {
    if let Some(form) = form {
        out.put(b": ");
        out.put(script::text_of(form));
    }
    out.put(b"\n");
}

fn help(out: &mut Output) {
    out.put(
        b"A line is a word and decimal numbers, with one space between. An empty line, and one that begins with #, asks for nothing.\n",
    );
    for entry in &script::FORMS {
        out.put(entry.text);
        out.put(b"\n");
    }
    out.put(
        b"A call that is refused answers refused NUMBER VALUE..., one that can't be made where it stands not now, any other line bad line.\n\
        A program of this language has no exit status: a script asks its answers, as in: replay FILE | grep -q '^bad line'\n",
    );
}

// An answer; `list` has the waiting list, the stretches, the answers of a plan or the bytes of an export, and `form` is the one that a bad
// line is told.
pub fn print(
    out: &mut Output,
    said: Said,
    list: &[u64],
    area: &[u8],
    session: &Session,
    form: Option<Form>,
) {
    out.say(said.text, &said.numbers);
    match said.then {
        Then::Nothing => {}
        Then::Waiting(n) => waiting(out, list, n),
        Then::Stretches(n) => stretches(out, list, n),
        Then::Plan(n) => plan(out, list, n),
        Then::Snapshots { cursor, attempts } => snapshots(out, list, cursor, attempts),
        Then::Block { from } => block(out, area, from),
        Then::State => shown::state(out, session.machine.writing.consumer),
        Then::Expected => expected(out, form),
        Then::Help => help(out),
    }
}
