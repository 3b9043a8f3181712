// The compiled check on RFC 3720's examples (B.4) and on the digits 1 to 9, each whole and in two parts. A line has the
// example, the check computed and the one that it should be. The RFC prints a check as bytes, the lowest first.
#![tactic(auto)]

ghost use Rattle.std.specs.Prelude.{◌≡◌};
ghost use Rattle.crc.specs.Crc32c.{crc};

use std::io;
use std::io::Stdout;

fn main(rt: HostRuntime) -> io::Result<()> {
    let stdout = rt.stdout();
    example(stdout, "32 bytes of zeroes", &[0u8; 32], 0x8a91_36aa)?;
    example(stdout, "32 bytes of ones", &[255u8; 32], 0x62a8_ab43)?;
    let rising = b"\x00\x01\x02\x03\x04\x05\x06\x07\x08\x09\x0a\x0b\x0c\x0d\x0e\x0f\
          \x10\x11\x12\x13\x14\x15\x16\x17\x18\x19\x1a\x1b\x1c\x1d\x1e\x1f";
    example(
        stdout,
        "32 bytes of incrementing 00..1f",
        rising,
        0x46dd_794e,
    )?;
    let falling = b"\x1f\x1e\x1d\x1c\x1b\x1a\x19\x18\x17\x16\x15\x14\x13\x12\x11\x10\
          \x0f\x0e\x0d\x0c\x0b\x0a\x09\x08\x07\x06\x05\x04\x03\x02\x01\x00";
    example(
        stdout,
        "32 bytes of decrementing 1f..00",
        falling,
        0x113f_db5c,
    )?;
    let pdu = b"\x01\xc0\x00\x00\x00\x00\x00\x00\x00\x00\x00\x00\x00\x00\x00\x00\
          \x14\x00\x00\x00\x00\x00\x04\x00\x00\x00\x00\x14\x00\x00\x00\x18\
          \x28\x00\x00\x00\x00\x00\x00\x00\x02\x00\x00\x00\x00\x00\x00\x00";
    example(stdout, "SCSI Read (10) Command PDU", pdu, 0xd996_3a56)?;
    example(stdout, "123456789", b"123456789", 0xe306_9283)
}

// Two lines for an example: its bytes whole, and in two parts.
fn example(stdout: Stdout, name: &str, bytes: &[u8], expected: u32) -> io::Result<()> {
    line(stdout, name, ", whole: ", crc::crc32c(bytes), expected)?;
    line(
        stdout,
        name,
        ", in two parts: ",
        in_two_parts(bytes),
        expected,
    )
}

// The check of the first half of bytes, and from there on that of all.
fn in_two_parts(bytes: &[u8]) -> u32
    ensures { result ≡ crc bytes.now }
{
    let half = bytes.len() / 2;
    crc::crc32c_append(crc::crc32c(&bytes[..half]), &bytes[half..])
}

// One line, which says whether the check computed is the one expected.
fn line(stdout: Stdout, name: &str, how: &str, computed: u32, expected: u32) -> io::Result<()> {
    print!(stdout; "{name}{how}{computed:08x}, expected {expected:08x}")?;
    if computed == expected {
        println!(stdout; ", ok")
    } else {
        println!(stdout; ", WRONG")
    }
}
