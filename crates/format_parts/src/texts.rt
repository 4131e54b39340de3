// The text of an integer: canonical decimal.
ghost use Rattle.std.specs.Prelude.{◌≡◌, ◌+◌, ◌≤◌, length};
ghost use Rattle.base_words.specs.Words.{text_at};
ghost use Rattle.spec_rules.specs.Texts.{digits as Digits, natural as Natural, canonical as Canonical};

// Digits alone.
fn digits(text: &[u8]) -> bool
    ensures { result ≡ Digits text.now }
{
    text.iter().all(|byte| byte.is_ascii_digit())
}

// A digit 1 to 9 and further digits.
#[tactic(auto, using(crate::specs::TextsLaws::natural_laws))]
fn natural(text: &[u8]) -> bool
    ensures { result ≡ Natural text.now }
{
    match text {
        [b'1'..=b'9', rest @ ..] => digits(rest),
        _ => false,
    }
}

// `0`, or an optional `-` then a digit 1 to 9 and further digits.
pub fn canonical(s: &[u8], start: usize, len: usize) -> bool
    requires { start + len ≤ length s.now }
    ensures { result ≡ Canonical (text_at s.now start len) }
{
    let text = &s[start..start + len];
    text == b"0".as_slice() || natural(text.strip_prefix(b"-").unwrap_or(text))
}
