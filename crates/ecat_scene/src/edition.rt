//! Texts of the second edition, in which a person writes more freely, as texts of the first one.

ghost use Rattle.std.specs.Prelude.{◌≡◌, codes, false, length, nat_eq};
ghost use Rattle.std.specs.List.{starts_with};

/// What the first line of a text of the second edition begins with.
const SECOND: &[u8] = b"scene 2";

/// The states by their names, and the digits that are their codes (ETG.1000.6, AL control).
const STATES: [(&[u8], u8); 6] = [
    (b"init", b'1'),
    (b"preop", b'2'),
    (b"pre-op", b'2'),
    (b"safeop", b'4'),
    (b"safe-op", b'4'),
    (b"op", b'8'),
];

/// Makes a text of the second edition one of the first, in its place: of as many bytes, each line where it
/// was. A text of the first edition stays as it is.
///
/// The first line of a text of the second edition is `scene 2`. Lines may end with CR LF, tabs separate words
/// too, `#` at the beginning of a word begins a comment, in which any bytes may stand, and `state` takes the
/// names of states, in either case of letters (`Op`, `SAFE-OP`, `safeop`).
pub fn to_first_edition(text: &mut [u8])
    ensures first { starts_with nat_eq text.old (codes "scene 2") ≡ false → text.new ≡ text.old }
{
    if !is_second(text) {
        return;
    }
    put_blanks(text);
    for line in text.split_mut(|byte| is_line_end(*byte)) {
        put_state(line);
    }
    if let Some(first) = text.first_mut() {
        *first = b'#';
    }
}

/// Is the first line of a text that of the second edition?
fn is_second(text: &[u8]) -> bool
    ensures { starts_with nat_eq text.now (codes "scene 2") ≡ false → result ≡ false }
{
    text.starts_with(SECOND) && ends_there(text.get(SECOND.len()))
}

/// Does a word end where this byte follows, or none?
fn ends_there(byte: Option<&u8>) -> bool {
    match byte {
        Some(byte) => is_line_end(*byte) || is_blank(*byte),
        None => true,
    }
}

/// Is the byte LF, which separates lines?
fn is_line_end(byte: u8) -> bool {
    byte == b'\n'
}

/// Is the byte one that separates words?
fn is_blank(byte: u8) -> bool {
    matches!(byte, b' ' | b'\t' | b'\r')
}

/// Puts a space in the place of each byte that separates words, or stands in a comment.
fn put_blanks(text: &mut [u8]) {
    let mut before = b'\n';
    let mut is_comment = false;
    for byte in text.iter_mut() {
        let begins = *byte == b'#' && ends_there(Some(&before));
        is_comment = !is_line_end(*byte) && (is_comment || begins);
        before = *byte;
        if is_comment || is_blank(before) {
            *byte = b' ';
        }
    }
}

/// Puts the code of a state in the place of its name, where a line is `state` and a name.
fn put_state(line: &mut [u8]) {
    let Some((from, to)) = second_word(line) else {
        return;
    };
    let Some(name) = line.get_mut(from..to) else {
        return;
    };
    if let Some(code) = code_of(name) {
        name.fill(b' ');
        if let Some(first) = name.first_mut() {
            *first = code;
        }
    }
}

/// From where to where the second word of a line stands whose first one is `state`.
fn second_word(line: &[u8]) -> Option<(usize, usize)> {
    let start = line.iter().position(|byte| *byte != b' ')?;
    let behind = line.get(start..)?.strip_prefix(b"state ")?;
    let blanks = behind.iter().position(|byte| *byte != b' ')?;
    let word = behind.get(blanks..)?;
    let length = match word.iter().position(|byte| *byte == b' ') {
        Some(length) => length,
        None => word.len(),
    };
    let from = line.len().saturating_sub(word.len());
    Some((from, from.saturating_add(length)))
}

/// The code of a state of this name, as a digit.
fn code_of(name: &[u8]) -> Option<u8> {
    STATES
        .iter()
        .find(|state| name.eq_ignore_ascii_case(state.0))
        .map(|state| state.1)
}
