ghost use Rattle.std.specs.Prelude.{◌↔◌, ◌≡◌, ◌||◌, IsTrue, All, Any, Contains};
ghost use Rattle.ix_net.specs.Name.{IsName, StartsWithLetter, keywords, is_letter as letter_test, is_mark as mark_test};

/// The keywords of Verilog that have a digit or a `_`.
const KEYWORDS: [&str; 22] = [
    "pulsestyle_onevent",
    "pulsestyle_ondetect",
    "bufif0",
    "bufif1",
    "highz0",
    "highz1",
    "notif0",
    "notif1",
    "pull0",
    "pull1",
    "rtranif0",
    "rtranif1",
    "strong0",
    "strong1",
    "supply0",
    "supply1",
    "tranif0",
    "tranif1",
    "tri0",
    "tri1",
    "weak0",
    "weak1",
];

fn is_letter(byte: u8) -> bool
    ensures { result ≡ letter_test byte }
{
    byte.is_ascii_alphabetic() || byte == b'_'
}

fn is_mark(byte: u8) -> bool
    ensures { result ≡ mark_test byte }
{
    byte.is_ascii_digit() || byte == b'_'
}

fn starts_with_letter(text: &[u8]) -> bool
    ensures { IsTrue result ↔ StartsWithLetter text.now }
{
    match text {
        [] => false,
        [first, ..] => is_letter(*first),
    }
}

fn is_keyword(text: &str) -> bool
    ensures { IsTrue result ↔ Contains keywords text.now }
{
    KEYWORDS.contains(&text)
}

fn is_plain(text: &[u8]) -> bool
    ensures { IsTrue result ↔ All (λ b. IsTrue (letter_test b || mark_test b)) text.now }
{
    text.iter().all(|byte| is_letter(*byte) || is_mark(*byte))
}

fn is_marked(text: &[u8]) -> bool
    ensures { IsTrue result ↔ Any (λ b. IsTrue (mark_test b)) text.now }
{
    text.iter().any(|byte| is_mark(*byte))
}

/// Whether a text is a name: a letter or `_`, then letters, digits and `_`, with a digit or `_` among them, and no keyword.
pub fn is_name(text: &str) -> bool
    ensures { IsTrue result ↔ IsName text.now }
{
    let bytes = text.as_bytes();
    if !starts_with_letter(bytes) || !is_plain(bytes) || !is_marked(bytes) {
        return false;
    }
    !is_keyword(text)
}
