// Appending bytes, texts, decimal and hexadecimal numbers to a lent buffer from a position on. A byte past the end is not stored, and
// the position after it is past the end too: so no writer asks for room, and whoever writes last sees whether all of it had room.
ghost use Rattle.std.specs.Prelude.{◌≡◌, [], ◌∷◌, ◌++◌, ◌+◌, ◌<◌};
ghost use Rattle.spec_rules.specs.Listing.{decimal, hex_digit, hex};
ghost use Rattle.app_listing.specs.Writing.{Writes};

pub fn put(out: &mut [u8], at: usize, b: u8) -> usize
    ensures { Writes out.old out.new at result (b ∷ []) }
{
    if at < out.len() {
        out[at] = b;
        return at + 1;
    }
    out.len() + 1
}

pub fn put_text(out: &mut [u8], at: usize, text: &[u8]) -> usize
    ensures { Writes out.old out.new at result text.now }
{
    let mut end = at;
    for &b in text {
        end = put(out, end, b);
    }
    end
}

fn digit(n: u16) -> u8
    requires { n < 10 }
    ensures { result ≡ 48 + n }
{
    b'0' + n as u8
}

pub fn put_decimal(out: &mut [u8], at: usize, n: u16) -> usize
    ensures { Writes out.old out.new at result (decimal n) }
{
    if n < 10 {
        return put(out, at, digit(n));
    }
    let end = put_decimal(out, at, n / 10);
    put(out, end, digit(n % 10))
}

// A word and a number: a step, or what a test begins with.
pub fn put_numbered(out: &mut [u8], at: usize, word: &[u8], n: u16) -> usize
    ensures { Writes out.old out.new at result (word.now ++ decimal n) }
{
    let end = put_text(out, at, word);
    put_decimal(out, end, n)
}

fn hex_digit(n: u8) -> u8
    requires { n < 16 }
    ensures { result ≡ hex_digit n }
{
    if n < 10 {
        return b'0' + n;
    }
    b'a' - 10 + n
}

// A byte in two digits, the high one first.
fn put_hex_byte(out: &mut [u8], at: usize, b: u8) -> usize
    ensures { Writes out.old out.new at result (hex (b ∷ [])) }
{
    let end = put(out, at, hex_digit(b / 16));
    put(out, end, hex_digit(b % 16))
}

pub fn put_hex(out: &mut [u8], at: usize, text: &[u8]) -> usize
    ensures { Writes out.old out.new at result (hex text.now) }
{
    let mut end = at;
    for &b in text {
        end = put_hex_byte(out, end, b);
    }
    end
}
