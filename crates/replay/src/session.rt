// What is being run by a script: a machine with its journal in a lent area, its start, its calls, and the answer to each line.
ghost use Rattle.std.specs.Prelude.{ℕ, ◌≡◌, ◌≤◌, length, IfSome};
ghost use Rattle.machine.specs.View.{Sound};
ghost use Rattle.replay.specs.Calls.{kind_at};
ghost use Rattle.replay.specs.Running.{Ready};

use crate::printing::{
    ATTEMPT_PLACES, CURSOR_PLACES, Said, Then, bad_line, not_now, plain, unless_refused, with,
};
use crate::script::{Form, NUMBERS, Request};
use crate::{blocks, printing};
use answers::Numbers;
use consumer::{Configuration, Settings, rights};
use delivery::DeliveryConfig;
use hours::Hours;
use lease::LeaseConfig;
use machine::calls::Call;
use machine::{Machine, Started};
use power_cut::Kind;
use server::kinds;
use types::Generation;
use types::limits::WORKERS;
use types::refusals::Refusal;

// The machine, how many bytes of the lent area are its journal, which is none before the first start, and the worker who calls. The rights
// and the hours in the machine's configuration are those that were said last: a start, an import and a restart hand them in, and nothing
// else looks at them.
#[derive(Clone, Copy)]
pub struct Session {
    pub machine: Machine,
    pub len: usize,
    pub worker: u64,
}

// ## what a line asks

// The number that `server` gives the call of a form; of a form that is none, one that no call has.
fn kind_of(form: Form) -> u64
    ensures { result ≡ kind_at form }
{
    match form {
        Form::Claim => 0,
        Form::Ack => 1,
        Form::Term => 2,
        Form::Nack => 3,
        Form::NackAfter => 4,
        Form::Progress => 5,
        Form::Commit => 6,
        Form::Begin => 16,
        Form::Step | Form::StepOn => 17,
        Form::Restart | Form::RestartOn => 18,
        Form::Waiting => 32,
        Form::View => 40,
        Form::Open => 41,
        Form::Nearest => 42,
        _ => u64::MAX,
    }
}

// The call of a line. `open` has room for up to 256 stretches.
fn call_of(worker: u64, request: Request) -> Option<Call> {
    let v = request.numbers;
    if request.form == Form::Open && 256 < v[2] {
        return None;
    }
    kinds::call_of(worker, kind_of(request.form), v[0], v[1], v[2], v[3])
}

fn cut_of(form: Form) -> Option<Kind> {
    match form {
        Form::CutOld => Some(Kind::Old),
        Form::CutNew => Some(Kind::New),
        Form::CutTorn => Some(Kind::Torn),
        _ => None,
    }
}

// How much of the area, of which so much is the journal, a call is lent: the journal, where the line doesn't say; nothing before the first
// start, nor more than there is.
fn lent_to(request: Request, len: usize) -> Option<usize>
    ensures { IfSome result (λ n. n ≤ len) }
{
    let lent = match request.form {
        Form::StepOn | Form::RestartOn => request.numbers[0] as usize,
        _ => len,
    };
    if len == 0 || len < lent {
        return None;
    }
    Some(lent)
}

// How many places of the list a call is lent: two for each stretch that `open` has room for, and all of them elsewhere.
fn places_for(request: Request, most: usize) -> usize
    ensures { result ≤ most }
{
    let room = request.numbers[2];
    if request.form == Form::Open && room <= 256 {
        return (2 * (room as usize)).min(most);
    }
    most
}

// ## a start

// The configuration that a start's numbers are, with the workers' rights and the hours; none where they are out of range. The last of them
// are the backoffs.
fn configuration_of(
    v: [u64; NUMBERS],
    count: usize,
    rights: [u8; WORKERS],
    hours: Hours,
) -> Option<Configuration> {
    if 1 < v[1] {
        return None;
    }
    let mut backoff_nanos = [0u64; 16];
    backoff_nanos.copy_from_slice(&v[6..22]);
    Some(Configuration {
        settings: Settings {
            delivery: DeliveryConfig {
                max_deliver: u32::try_from(v[0]).ok()?,
                allow_unlimited: v[1] == 1,
                backoff_nanos,
                backoff_len: count.saturating_sub(6),
                attempts_flush_redeliveries: u32::try_from(v[2]).ok()?,
            },
            rights,
            hours,
        },
        lease: LeaseConfig {
            visibility_nanos: v[3],
            hard_cap_nanos: v[4],
        },
    })
}

// Before the first start. Worker 0 calls, and has every right; the others have none.
pub fn nothing_started() -> Session
    ensures { (n : ℕ) → Ready n result }
{
    let configuration = Configuration {
        settings: Settings {
            delivery: DeliveryConfig::default(),
            rights: [127, 0, 0, 0, 0, 0, 0, 0],
            hours: Hours {
                given: false,
                shift: 0,
                days: [0; 7],
            },
        },
        lease: LeaseConfig::default(),
    };
    Session {
        machine: Machine::off(configuration),
        len: 0,
        worker: 0,
    }
}

// What was made on the first `len` bytes of the area, which are zeroed; refused, it leaves what was there.
fn made(session: &mut Session, made: Started, len: usize, area: &mut [u8]) -> Result<(), Refusal>
    requires { Ready (length area.old) session.old × Sound made.machine }
    ensures { Ready (length area.old) session.new }
{
    made.answer?;
    if area.len() < len {
        return Err(Refusal::BadArea);
    }
    session.machine = made.machine;
    session.len = len;
    raw::clear(&mut area[..len]);
    Ok(())
}

// A start on the first bytes of the area, which are zeroed; refused, it leaves what was there.
fn start(session: &mut Session, request: Request, area: &mut [u8]) -> Said
    requires { Ready (length area.old) session.old }
    ensures { Ready (length area.old) session.new }
{
    let v = request.numbers;
    let settings = session.machine.configuration.settings;
    let Some(configuration) = configuration_of(v, request.count, settings.rights, settings.hours)
    else {
        return bad_line();
    };
    let len = v[5] as usize;
    let answer = made(session, Machine::start(configuration, len), len, area);
    unless_refused(answers::of_done(answer), plain(b"started\n"))
}

// An import on the journal, which is zeroed, of the bytes that begin a list; refused, it leaves what was there. The configuration is that
// which a restart would be handed.
fn import(session: &mut Session, request: Request, bytes: &[u8], area: &mut [u8]) -> Said
    requires { Ready (length area.old) session.old }
    ensures { Ready (length area.old) session.new }
{
    let v = request.numbers;
    let len = session.len;
    if len == 0 {
        return not_now();
    }
    let middle = (v[1] as usize).min(bytes.len());
    let rest = &bytes[middle..];
    let end = (v[2] as usize).min(rest.len());
    let configuration = session.machine.configuration;
    let first = Generation(v[0]);
    let imported = Machine::import(configuration, len, first, &bytes[..middle], &rest[..end]);
    let answer = made(session, imported, len, area);
    unless_refused(answers::of_done(answer), plain(b"imported\n"))
}

// ## calls

// How much of the area is the journal after a call that was lent so much: a restart that isn't refused keeps what it was lent.
fn len_after(form: Form, code: Numbers, len: usize, lent: usize) -> usize
    requires { lent ≤ len }
    ensures { result ≤ len }
{
    match form {
        Form::Restart | Form::RestartOn if code.0 == 0 => lent,
        _ => len,
    }
}

// A call that is lent the first bytes of the area.
fn called(
    session: &mut Session,
    call: Call,
    request: Request,
    area: &mut [u8],
    list: &mut [u64],
) -> Said
    requires { Ready (length area.old) session.old }
    ensures { Ready (length area.old) session.new }
{
    let len = session.len;
    let Some(lent) = lent_to(request, len) else {
        return not_now();
    };
    let places = places_for(request, list.len());
    let called = machine::call(
        session.machine,
        call,
        &mut area[..lent],
        &mut list[..places],
    );
    session.machine = called.machine;
    let code = answers::of_call(called.answer, list);
    session.len = len_after(request.form, code, len, lent);
    let rights = called.machine.writing.consumer.settings.rights;
    let supervisor = rights::is_supervisor(&rights, session.worker);
    printing::call_said(request.form, request.numbers[0], code, supervisor)
}

// The power fails in the step that is next.
fn cut(session: &mut Session, kind: Kind, area: &mut [u8]) -> Said
    requires { Ready (length area.old) session.old }
    ensures { Ready (length area.old) session.new }
{
    let len = session.len;
    blocks::cut(&mut session.machine, kind, &mut area[..len])
}

// ## what is handed in from the next start or restart on

// What a worker is given.
fn give(session: &mut Session, worker: u64, mask: u64) -> Said
    requires { Sound session.old.machine }
    ensures { (n : ℕ) → Ready n session.old → Ready n session.new }
{
    let Ok(mask) = u8::try_from(mask) else {
        return bad_line();
    };
    if 7 < worker {
        return bad_line();
    }
    session.machine.configuration.settings.rights[worker as usize] = mask;
    plain(b"rights\n")
}

// The hours.
fn set_hours(session: &mut Session, hours: Hours) -> Said
    requires { Sound session.old.machine }
    ensures { (n : ℕ) → Ready n session.old → Ready n session.new }
{
    session.machine.configuration.settings.hours = hours;
    plain(b"hours\n")
}

// The hours that a line says: the shift and the seven days, or none.
fn hours_of(given: bool, v: [u64; NUMBERS]) -> Hours {
    Hours {
        given,
        shift: v[0],
        days: [v[1], v[2], v[3], v[4], v[5], v[6], v[7]],
    }
}

// ## a plan and an export

// Bytes as the first entries of a list, as far as it has places.
fn list_bytes(bytes: &[u8], list: &mut [u64]) {
    for (place, byte) in list.iter_mut().zip(bytes) {
        *place = u64::from(*byte);
    }
}

// A plan of these offsets, into a list of bytes. Its answers go into `list`.
fn planned(
    machine: Machine,
    worker: u64,
    offsets: &[u64],
    bytes: &mut [u8],
    list: &mut [u64],
) -> Said
    requires { Sound machine }
{
    let Some(answer) = machine.plan(worker, offsets, bytes) else {
        return not_now();
    };
    list_bytes(bytes, list);
    printing::plan_said(answers::of_plan(answer, bytes), offsets.len())
}

// A plan, of whose room, its first number, there is at most 256. The numbers behind that are its offsets.
fn plan(machine: Machine, worker: u64, request: Request, list: &mut [u64]) -> Said
    requires { Sound machine }
{
    let v = request.numbers;
    let count = request.count;
    let mut bytes = [0u8; 256];
    if 256 < v[0] || NUMBERS < count || count == 0 {
        return bad_line();
    }
    let places = v[0] as usize;
    planned(machine, worker, &v[1..count], &mut bytes[..places], list)
}

// An export, whose bytes then go into `list`.
fn export(machine: Machine, worker: u64, list: &mut [u64]) -> Said
    requires { Sound machine }
{
    let mut cursor = [0u8; CURSOR_PLACES];
    let mut attempts = [0u8; ATTEMPT_PLACES];
    match machine.export(worker, &mut cursor, &mut attempts) {
        Some(answer) if CURSOR_PLACES <= list.len() => {
            list_bytes(&cursor, list);
            list_bytes(&attempts, &mut list[CURSOR_PLACES..]);
            let code = answers::of_export(answer, &cursor, &attempts);
            let snapshots = Then::Snapshots {
                cursor: code.2 as usize,
                attempts: code.3 as usize,
            };
            unless_refused(code, plain(b"exported ").then(snapshots))
        }
        Some(_) => bad_line(),
        None => not_now(),
    }
}

// ## lines

// The state, where it can be called.
fn state(machine: Machine) -> Said {
    if machine.phase == 0 {
        return plain(b"").then(Then::State);
    }
    not_now()
}

// The answer to a line that leaves the session as it is.
fn seen(session: &Session, request: Request, area: &mut [u8], list: &mut [u64]) -> Said
    requires { Sound session.now.machine }
{
    let v = request.numbers;
    match request.form {
        Form::Help => plain(b"").then(Then::Help),
        Form::State => state(session.machine),
        Form::Peek => blocks::peek(session.len, v[0]),
        Form::Poke => blocks::poke(session.len, v[0], v[1], v[2], area),
        Form::Plan => plan(session.machine, session.worker, request, list),
        Form::Export => export(session.machine, session.worker, list),
        _ => bad_line(),
    }
}

// The answer to a line that is no call.
fn other(
    session: &mut Session,
    request: Request,
    bytes: &[u8],
    area: &mut [u8],
    list: &mut [u64],
) -> Said
    requires { Ready (length area.old) session.old }
    ensures { Ready (length area.old) session.new }
{
    let v = request.numbers;
    match request.form {
        Form::Start => start(session, request, area),
        Form::Import => import(session, request, bytes, area),
        Form::Worker => {
            session.worker = v[0];
            with(b"worker #\n", v[0])
        }
        Form::Rights => give(session, v[0], v[1]),
        Form::Hours => set_hours(session, hours_of(true, v)),
        Form::HoursNone => set_hours(session, hours_of(false, v)),
        _ => seen(session, request, area, list),
    }
}

// What a line does, and its answer; `bytes` has those of an import, and `list` the waiting list, the stretches, the answers of a plan or the
// bytes of an export.
pub fn act(
    session: &mut Session,
    request: Request,
    bytes: &[u8],
    area: &mut [u8],
    list: &mut [u64],
) -> Said
    requires { Ready (length area.old) session.old }
    ensures { Ready (length area.old) session.new }
{
    if let Some(call) = call_of(session.worker, request) {
        return called(session, call, request, area, list);
    }
    if let Some(kind) = cut_of(request.form) {
        return cut(session, kind, area);
    }
    other(session, request, bytes, area, list)
}
