// What a Rust server compares before its first call: whether it was built for this library.
ghost use Rattle.std.specs.Prelude.{◌≡◌};
ghost use Rattle.exports.specs.Abi.{abi};

// The number of this interface: one more with every change of an exported call.
const ABI: u64 = 1;

// The number of this interface.
pub fn ninotskev_exports_abi() -> u64
    ensures { result ≡ abi }
{
    ABI
}
