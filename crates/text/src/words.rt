// The words of a line, which stand between its spaces, and the decimal numbers and the bytes among them.
ghost use Rattle.std.specs.Prelude.{◌≡◌, drop, set};
ghost use Rattle.types.specs.Refused.{option_of};
ghost use Rattle.text.specs.Words.{SPACE, same_bytes, FoundAt, later_words, number, with_digit, Gathered, hex_digit, hex_byte, Decoded};

// Whether two words are the same.
pub fn same(word: &[u8], name: &[u8]) -> bool
    ensures { result ≡ same_bytes word.now name.now }
{
    word == name
}

// The first place from `from` on where a byte is c, or the end.
pub fn find(bytes: &[u8], from: usize, c: u8) -> usize
    ensures { FoundAt c from bytes.now result }
{
    let end = bytes.len();
    if end < from {
        return from;
    }
    for i in from..end {
        if bytes[i] == c {
            return i;
        }
    }
    end
}

// Where the word that begins at a place ends: at the next space, or at the end of the line.
pub fn word_end(line: &[u8], from: usize) -> usize
    ensures { FoundAt SPACE from line.now result }
{
    find(line, from, b' ')
}

// The number n with one more digit behind it.
fn with_digit(n: u64, c: u8) -> Option<u64>
    ensures { option_of (λ m. m) result ≡ with_digit n c }
{
    match c {
        b'0'..=b'9' => n.checked_mul(10)?.checked_add((c - b'0') as u64),
        _ => None,
    }
}

// The number that a word is: one or more decimal digits, leading zeros allowed, that make no more than a u64 holds.
pub fn parse_number(word: &[u8]) -> Option<u64>
    ensures { option_of (λ n. n) result ≡ number word.now }
{
    if word.is_empty() {
        return None;
    }
    let mut n: u64 = 0;
    for c in word {
        n = with_digit(n, *c)?;
    }
    Some(n)
}

// Puts a value at a place of a list, where the list has it.
fn store<T: Copy>(out: &mut [T], i: usize, value: T)
    ensures { out.new ≡ set out.old i value }
{
    if i < out.len() {
        out[i] = value;
    }
}

// How many words stand behind the one that begins at `from`, where each of them is a number. The numbers in front of the first word that
// is none go into the first places of a lent list, as far as it has places.
pub fn parse_numbers(line: &[u8], from: usize, out: &mut [u64]) -> Option<usize>
    ensures { Gathered (later_words (drop from line.now)) out.old result out.new }
{
    let len = line.len();
    let mut count: usize = 0;
    let mut at = word_end(line, from);
    while at < len {
        let start = at + 1;
        let end = word_end(line, start);
        let n = parse_number(&line[start..end])?;
        store(out, count, n);
        count += 1;
        at = end;
    }
    Some(count)
}

// The value of a lower-case hexadecimal digit.
fn hex_digit(c: u8) -> Option<u8>
    ensures { option_of (λ n. n) result ≡ hex_digit c }
{
    match c {
        b'0'..=b'9' => Some(c - b'0'),
        b'a'..=b'f' => Some(c - b'a' + 10),
        _ => None,
    }
}

// The byte of two hexadecimal digits.
fn hex_byte(a: u8, b: u8) -> Option<u8>
    ensures { option_of (λ n. n) result ≡ hex_byte a b }
{
    Some(hex_digit(a)? * 16 + hex_digit(b)?)
}

// How many bytes a word is: two lower-case hexadecimal digits for each, or - for none at all. Those in front of the first two digits that
// are none go into the first places of a lent list, as far as it has places.
pub fn parse_bytes(word: &[u8], out: &mut [u8]) -> Option<usize>
    ensures { Decoded word.now out.old result out.new }
{
    if same(word, b"-") {
        return Some(0);
    }
    let len = word.len();
    if len == 0 {
        return None;
    }
    let mut count: usize = 0;
    let mut at: usize = 0;
    while at < len {
        let next = at + 1;
        if next == len {
            return None;
        }
        let byte = hex_byte(word[at], word[next])?;
        store(out, count, byte);
        count += 1;
        at = next + 1;
    }
    Some(count)
}
