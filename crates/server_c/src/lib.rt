// What a program in another language links: the exported functions, each one call of the library `server` with its very clauses. The names
// and the symbols are those of the header.
#![tactic(auto)]

ghost use Rattle.std.specs.Prelude.{List, ℕ, ◌≡◌};
ghost use Rattle.consumer.specs.Export.{snapshots};
ghost use Rattle.machine.specs.View.{phase_of, Sound};
ghost use Rattle.server.specs.Transitions.{AskIs, CallIs, due_next, PlanIs, ExportIs, SwitchedOff, StartIs, ImportIs};
ghost use Rattle.server.specs.Abi.{abi, size_at};

use answers::Numbers;
use consumer::Configuration;
use machine::Machine;

// `start`, into the machine's place, whatever stands there.
#[unsafe(no_mangle)]
pub extern "C" fn ninotskev_start(
    machine: &mut Machine,
    numbers: &mut Numbers,
    configuration: &Configuration,
    area_len: usize,
)
    ensures { StartIs machine.old configuration.now area_len numbers.new machine.new }
{
    server::calls::ninotskev_start(machine, numbers, configuration, area_len);
}

// `import`, into the machine's place, whatever stands there: the bytes of two snapshots and the first generation. A refusal leaves what
// stands there.
#[unsafe(no_mangle)]
pub extern "C" fn ninotskev_import<'a>(
    machine: &mut Machine,
    numbers: &mut Numbers,
    configuration: &Configuration,
    area_len: usize,
    generation: u64,
    cursor: &'a [u8],
    attempts: &'a [u8],
)
    ensures { ImportIs machine.old configuration.now area_len generation cursor.now attempts.now numbers.new machine.new }
{
    server::calls::ninotskev_import(
        machine,
        numbers,
        configuration,
        area_len,
        generation,
        cursor,
        attempts,
    );
}

// A machine that is off, in its place: only a restart is possible. What else stood there stays, and nobody can call it.
#[unsafe(no_mangle)]
pub extern "C" fn ninotskev_off(machine: &mut Machine, configuration: &Configuration)
    ensures { SwitchedOff machine.old configuration.now machine.new }
{
    server::calls::ninotskev_off(machine, configuration);
}

// `restart` on the machine in its place.
#[unsafe(no_mangle)]
pub extern "C" fn ninotskev_restart(machine: &mut Machine, numbers: &mut Numbers, area: &[u8])
    requires { Sound machine.old }
    ensures { (out : List ℕ) → CallIs machine.old 0 18 0 0 0 0 area.now out numbers.new machine.new area.now out }
{
    server::calls::ninotskev_restart(machine, numbers, area);
}

// A worker begins a checkpoint on the machine in its place: call 16.
#[unsafe(no_mangle)]
pub extern "C" fn ninotskev_begin(machine: &mut Machine, numbers: &mut Numbers, worker: u64)
    requires { Sound machine.old }
    ensures { (area out : List ℕ) → CallIs machine.old worker 16 0 0 0 0 area out numbers.new machine.new area out }
{
    server::calls::ninotskev_begin(machine, numbers, worker);
}

// Makes the next block write of a checkpoint, into the lent area: call 17.
#[unsafe(no_mangle)]
pub extern "C" fn ninotskev_step(machine: &mut Machine, numbers: &mut Numbers, area: &mut [u8])
    requires { Sound machine.old }
    ensures { (out : List ℕ) → CallIs machine.old 0 17 0 0 0 0 area.old out numbers.new machine.new area.new out }
{
    server::calls::ninotskev_step(machine, numbers, area);
}

// Whether a sync is due after the next step's write: 1 where a record is out and says so, else 0. It changes nothing.
#[unsafe(no_mangle)]
pub extern "C" fn ninotskev_sync_due(machine: &Machine) -> u64
    requires { Sound machine.now }
    ensures { result ≡ due_next (phase_of machine.now) }
{
    server::calls::ninotskev_sync_due(machine)
}

// A call of a worker on the state of the machine in its place.
#[unsafe(no_mangle)]
pub extern "C" fn ninotskev_ask(
    machine: &mut Machine,
    numbers: &mut Numbers,
    worker: u64,
    kind: u64,
    a: u64,
    b: u64,
    c: u64,
    d: u64,
    out: &mut [u64],
)
    requires { Sound machine.old }
    ensures { AskIs machine.old worker kind a b c d out.old numbers.new machine.new out.new }
{
    server::calls::ninotskev_ask(machine, numbers, worker, kind, a, b, c, d, out);
}

// Progress on the machine in its place: call 5 by itself. It is the call that a server makes most often, and this function reads only
// the parts that it looks at, and stores no number of the machine.
#[unsafe(no_mangle)]
pub extern "C" fn ninotskev_progress(
    machine: &mut Machine,
    numbers: &mut Numbers,
    worker: u64,
    offset: u64,
    generation: u64,
    now: u64,
)
    requires { Sound machine.old }
    ensures { (out : List ℕ) → AskIs machine.old worker 5 offset generation now 0 out numbers.new machine.new out }
{
    server::calls::ninotskev_progress(machine, numbers, worker, offset, generation, now);
}

// A worker's plan on the machine in its place: which of a list of offsets are settled, into a lent byte list. It changes no number of the
// machine.
#[unsafe(no_mangle)]
pub extern "C" fn ninotskev_plan(
    machine: &mut Machine,
    numbers: &mut Numbers,
    worker: u64,
    offsets: &[u64],
    out: &mut [u8],
)
    requires { Sound machine.old }
    ensures { PlanIs machine.old worker offsets.now out.old numbers.new machine.new out.new }
{
    server::calls::ninotskev_plan(machine, numbers, worker, offsets, out);
}

// A worker's export of the machine in its place: the snapshots of the cursor and of all counts, each at the front of its own lent bytes.
// It changes no number of the machine.
#[unsafe(no_mangle)]
pub extern "C" fn ninotskev_export(
    machine: &mut Machine,
    numbers: &mut Numbers,
    worker: u64,
    cursor: &mut [u8],
    attempts: &mut [u8],
)
    requires { Sound machine.old }
    ensures { ExportIs machine.old worker (snapshots cursor.old attempts.old) numbers.new machine.new (snapshots cursor.new attempts.new) }
{
    server::calls::ninotskev_export(machine, numbers, worker, cursor, attempts);
}

// The number of this interface.
#[unsafe(no_mangle)]
pub extern "C" fn ninotskev_abi() -> u64
    ensures { result ≡ abi }
{
    server::abi::ninotskev_abi()
}

// The bytes of a struct that crosses: 0 the machine, 1 its configuration, 2 an answer in numbers. Any other number answers 0.
#[unsafe(no_mangle)]
pub extern "C" fn ninotskev_abi_size(part: u64) -> u64
    ensures { result ≡ size_at part }
{
    server::abi::ninotskev_abi_size(part)
}
