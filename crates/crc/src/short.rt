// The check of short inputs, four bytes at a step. An array of constants is copied to the stack at each call, which costs a short
// input more than its check; the arms of a `match` on the numbers from 0 on become a table in read-only memory where the compiler
// puts the function in its caller's place. It does so with few arms anywhere, and with many where the source has one call. So the
// nibbles' tables are two functions here: one for four bytes, and a short one for a single byte, whose numbers the first has too.
ghost use Rattle.std.specs.Prelude.{◌≡◌, ◌+◌, ◌-◌, ◌*◌, ◌/◌, ◌%◌, ◌^◌, ◌<◌, ◌≤◌, length, drop};
ghost use Rattle.crc.specs.Crc32c.{bits, feed_bits, feed};
ghost use Rattle.crc.specs.Table.{nibble};

// The register after all the bytes. Those that make no whole four come first: in both snapshots that is the version, and each four
// behind it then lies within a number, which was perhaps stored just before and is read back fast only within one store.
pub(crate) fn after_short(first: u32, bytes: &[u8]) -> u32
    ensures { bits 32 result ≡ feed (bits 32 first) bytes.now }
{
    let from = bytes.len() % 4;
    let register = after_few(first, bytes, from);
    after_halves(register, bytes, from)
}

// The register after the first `end` bytes, one at a step.
fn after_few(first: u32, bytes: &[u8], end: usize) -> u32
    requires { end ≤ length bytes.now }
    ensures { feed (bits 32 result) (drop end bytes.now) ≡ feed (bits 32 first) bytes.now }
{
    let mut register = first;
    for i in 0..end {
        register = after_one(register, bytes[i]);
    }
    register
}

// The register after the bytes from `from` on, four at a step.
fn after_halves(first: u32, bytes: &[u8], from: usize) -> u32
    requires { (from ≤ length bytes.now) × ((length bytes.now - from) % 4 ≡ 0) }
    ensures { bits 32 result ≡ feed (bits 32 first) (drop from bytes.now) }
{
    let mut register = first;
    let mut i = from;
    while i < bytes.len() {
        register = after_half(register, raw::half_at(bytes, i));
        i += 4;
    }
    register
}

// The register after four bytes more, which are a number: they and the register come together to eight nibbles.
fn after_half(register: u32, half: u32) -> u32
    ensures { bits 32 result ≡ feed_bits (bits 32 register) (bits 32 half) }
{
    let x = half ^ register;
    let mut sum: u32 = 0;
    for z in 0..8 {
        sum ^= passed(x, z);
    }
    sum
}

// What the nibble of x that has z nibbles behind it comes to.
fn passed(x: u32, z: u32) -> u32
    requires { z < 8 }
    ensures { result ≡ nibble (16 * z + x / 2 ^ (28 - 4 * z) % 16) }
{
    nibble_row(16 * z + (x >> (28 - 4 * z)) % 16)
}

// The register after one byte more: it and the register's low byte come together to two nibbles.
fn after_one(register: u32, byte: u8) -> u32
    ensures { bits 32 result ≡ feed_bits (bits 32 register) (bits 8 byte) }
{
    let low = (register ^ (byte as u32)) % 256;
    let upper = in_byte(low / 16);
    let lower = in_byte(low % 16);
    upper.0 ^ lower.1 ^ (register >> 8)
}

// What a nibble comes to as the upper one of a byte, with none behind it, and as the lower one, with one behind it.
#[derive(Clone, Copy)]
struct InByte(u32, u32);

fn in_byte(v: u32) -> InByte
    requires { v < 16 }
    ensures { (result.0 ≡ nibble v) × (result.1 ≡ nibble (16 + v)) }
{
    match v {
        0 => InByte(0x00000000, 0x00000000),
        1 => InByte(0x105ec76f, 0xf26b8303),
        2 => InByte(0x20bd8ede, 0xe13b70f7),
        3 => InByte(0x30e349b1, 0x1350f3f4),
        4 => InByte(0x417b1dbc, 0xc79a971f),
        5 => InByte(0x5125dad3, 0x35f1141c),
        6 => InByte(0x61c69362, 0x26a1e7e8),
        7 => InByte(0x7198540d, 0xd4ca64eb),
        8 => InByte(0x82f63b78, 0x8ad958cf),
        9 => InByte(0x92a8fc17, 0x78b2dbcc),
        10 => InByte(0xa24bb5a6, 0x6be22838),
        11 => InByte(0xb21572c9, 0x9989ab3b),
        12 => InByte(0xc38d26c4, 0x4d43cfd0),
        13 => InByte(0xd3d3e1ab, 0xbf284cd3),
        14 => InByte(0xe330a81a, 0xac78bf27),
        15 => InByte(0xf36e6f75, 0x5e133c24),
        _ => InByte(0, 0),
    }
}

// The rows: at 16 * z + v what the nibble v comes to with z nibbles behind it.
fn nibble_row(k: u32) -> u32
    requires { k < 128 }
    ensures { result ≡ nibble k }
{
    match k {
        0 => 0x00000000,
        1 => 0x105ec76f,
        2 => 0x20bd8ede,
        3 => 0x30e349b1,
        4 => 0x417b1dbc,
        5 => 0x5125dad3,
        6 => 0x61c69362,
        7 => 0x7198540d,
        8 => 0x82f63b78,
        9 => 0x92a8fc17,
        10 => 0xa24bb5a6,
        11 => 0xb21572c9,
        12 => 0xc38d26c4,
        13 => 0xd3d3e1ab,
        14 => 0xe330a81a,
        15 => 0xf36e6f75,
        16 => 0x00000000,
        17 => 0xf26b8303,
        18 => 0xe13b70f7,
        19 => 0x1350f3f4,
        20 => 0xc79a971f,
        21 => 0x35f1141c,
        22 => 0x26a1e7e8,
        23 => 0xd4ca64eb,
        24 => 0x8ad958cf,
        25 => 0x78b2dbcc,
        26 => 0x6be22838,
        27 => 0x9989ab3b,
        28 => 0x4d43cfd0,
        29 => 0xbf284cd3,
        30 => 0xac78bf27,
        31 => 0x5e133c24,
        32 => 0x00000000,
        33 => 0x3fc5f181,
        34 => 0x7f8be302,
        35 => 0x404e1283,
        36 => 0xff17c604,
        37 => 0xc0d23785,
        38 => 0x809c2506,
        39 => 0xbf59d487,
        40 => 0xfbc3faf9,
        41 => 0xc4060b78,
        42 => 0x844819fb,
        43 => 0xbb8de87a,
        44 => 0x04d43cfd,
        45 => 0x3b11cd7c,
        46 => 0x7b5fdfff,
        47 => 0x449a2e7e,
        48 => 0x00000000,
        49 => 0x13a29877,
        50 => 0x274530ee,
        51 => 0x34e7a899,
        52 => 0x4e8a61dc,
        53 => 0x5d28f9ab,
        54 => 0x69cf5132,
        55 => 0x7a6dc945,
        56 => 0x9d14c3b8,
        57 => 0x8eb65bcf,
        58 => 0xba51f356,
        59 => 0xa9f36b21,
        60 => 0xd39ea264,
        61 => 0xc03c3a13,
        62 => 0xf4db928a,
        63 => 0xe7790afd,
        64 => 0x00000000,
        65 => 0x70a27d8a,
        66 => 0xe144fb14,
        67 => 0x91e6869e,
        68 => 0xc76580d9,
        69 => 0xb7c7fd53,
        70 => 0x26217bcd,
        71 => 0x56830647,
        72 => 0x8b277743,
        73 => 0xfb850ac9,
        74 => 0x6a638c57,
        75 => 0x1ac1f1dd,
        76 => 0x4c42f79a,
        77 => 0x3ce08a10,
        78 => 0xad060c8e,
        79 => 0xdda47104,
        80 => 0x00000000,
        81 => 0xa541927e,
        82 => 0x4f6f520d,
        83 => 0xea2ec073,
        84 => 0x9edea41a,
        85 => 0x3b9f3664,
        86 => 0xd1b1f617,
        87 => 0x74f06469,
        88 => 0x38513ec5,
        89 => 0x9d10acbb,
        90 => 0x773e6cc8,
        91 => 0xd27ffeb6,
        92 => 0xa68f9adf,
        93 => 0x03ce08a1,
        94 => 0xe9e0c8d2,
        95 => 0x4ca15aac,
        96 => 0x00000000,
        97 => 0xe964b13d,
        98 => 0xd725148b,
        99 => 0x3e41a5b6,
        100 => 0xaba65fe7,
        101 => 0x42c2eeda,
        102 => 0x7c834b6c,
        103 => 0x95e7fa51,
        104 => 0x52a0c93f,
        105 => 0xbbc47802,
        106 => 0x8585ddb4,
        107 => 0x6ce16c89,
        108 => 0xf90696d8,
        109 => 0x106227e5,
        110 => 0x2e238253,
        111 => 0xc747336e,
        112 => 0x00000000,
        113 => 0xdd45aab8,
        114 => 0xbf672381,
        115 => 0x62228939,
        116 => 0x7b2231f3,
        117 => 0xa6679b4b,
        118 => 0xc4451272,
        119 => 0x1900b8ca,
        120 => 0xf64463e6,
        121 => 0x2b01c95e,
        122 => 0x49234067,
        123 => 0x9466eadf,
        124 => 0x8d665215,
        125 => 0x5023f8ad,
        126 => 0x32017194,
        127 => 0xef44db2c,
        _ => 0,
    }
}
