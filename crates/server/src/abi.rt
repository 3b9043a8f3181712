// What a Rust server compares before its first call: whether it was built for this library.
ghost use Rattle.std.specs.Prelude.{◌≡◌};
ghost use Rattle.server.specs.Abi.{abi, size_at};

// The number of this interface: one more with every change of a struct that crosses or of an exported call.
const ABI: u64 = 2;

// The bytes of the structs that cross.
const MACHINE_BYTES: u64 = 10616;

const CONFIGURATION_BYTES: u64 = 248;

const NUMBERS_BYTES: u64 = 56;

// The number of this interface.
pub fn ninotskev_abi() -> u64
    ensures { result ≡ abi }
{
    ABI
}

// The bytes of a struct that crosses: 0 the machine, 1 its configuration, 2 an answer in numbers. Any other number answers 0.
pub fn ninotskev_abi_size(part: u64) -> u64
    ensures { result ≡ size_at part }
{
    match part {
        0 => MACHINE_BYTES,
        1 => CONFIGURATION_BYTES,
        2 => NUMBERS_BYTES,
        _ => 0,
    }
}
