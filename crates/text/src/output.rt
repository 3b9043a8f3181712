// Text for standard output, gathered in a lent buffer that is written out when it is full and when it is flushed. Nothing is lost:
// what doesn't fit an empty buffer is written at once. A write that fails is left at that.
ghost use Rattle.std.specs.Prelude.{◌≡◌, [], ◌∷◌};
ghost use Rattle.text.specs.Output.{decimal, hexadecimal, Same, Says};

use io::{decimal, hex};
use std::cmp::min;
use std::io::Stdout;

// Bytes that are to be written out: the first `at` of a lent buffer.
#[derive(Drop)]
pub struct Output<'a> {
    pub stdout: Stdout,
    pub bytes: &'a mut [u8],
    pub at: usize,
}

// Writes bytes out, as far as that can be done.
fn write_out(stdout: Stdout, bytes: &[u8]) {
    let _ = stdout.write_all(bytes);
}

impl<'a> Output<'a> {
    // Nothing gathered yet.
    pub fn new(stdout: Stdout, bytes: &'a mut [u8]) -> Output<'a>
        ensures empty { result.at ≡ 0 }
        ensures stdout { result.stdout ≡ stdout }
        ensures lent { result.bytes.ghost_name ≡ bytes.entry.ghost_name }
        ensures kept { result.bytes.now ≡ bytes.old }
    {
        Output {
            stdout,
            bytes,
            at: 0,
        }
    }

    // Writes out what is gathered.
    fn write_gathered(&self) {
        write_out(self.stdout, &self.bytes[..min(self.at, self.bytes.len())]);
    }

    // Writes out what is gathered, which then begins anew.
    pub fn flush(&mut self)
        ensures empty { self.new.at ≡ 0 }
        ensures kept { self.new.bytes.now ≡ self.old.bytes.now }
        ensures same { Same self.old self.new }
    {
        self.write_gathered();
        self.at = 0;
    }

    // Bytes behind those that are gathered, or at the buffer's start once these are written out.
    pub fn put(&mut self, text: &[u8])
        ensures { Says (text.now ∷ []) self.old self.new }
    {
        let at = self.at;
        if let Ok(next) = raw::write_bytes(self.bytes, at, text) {
            self.at = next;
            return;
        }
        self.flush();
        match raw::write_bytes(self.bytes, 0, text) {
            Ok(next) => self.at = next,
            Err(_) => write_out(self.stdout, text),
        }
    }

    // The decimal digits of a number, as few as hold it.
    pub fn put_number(&mut self, n: u64)
        ensures { Says (decimal n ∷ []) self.old self.new }
    {
        let mut text = [0u8; 20];
        let k = decimal(n, &mut text);
        self.put(&text[..k]);
    }

    // The two hexadecimal digits of a byte.
    pub fn put_hex(&mut self, byte: u8)
        ensures { Says (hexadecimal byte ∷ []) self.old self.new }
    {
        let mut text = [0u8; 16];
        let k = hex(byte as u64, 2, &mut text);
        self.put(&text[..k]);
    }
}
