//! The lines and words of a scene.

ghost use Rattle.std.specs.Prelude.{◌≡◌, IfOk, OnOk, map};
ghost use Rattle.std.specs.List.{list_all};
ghost use Rattle.ecat_scene.specs.Text.{is_space, is_text, tested, words_in};
ghost use Rattle.ecat_scene.specs.Words.{text_in};

use crate::fault::LineFault;
use std::alloc::{AllocError, Global};

/// Is the byte a character of ASCII text?
pub fn is_text(byte: u8) -> bool
    ensures { result ≡ is_text byte }
{
    matches!(byte, 0x20..=0x7e)
}

/// Tests that a line is ASCII text without control characters.
pub(crate) fn test_text(line: &[u8]) -> Result<(), LineFault>
    ensures { result ≡ tested line.now }
{
    if is_all_text(line) {
        Ok(())
    } else {
        Err(LineFault::NotText)
    }
}

/// Is each byte of a line a character of ASCII text?
fn is_all_text(line: &[u8]) -> bool
    ensures { result ≡ list_all is_text line.now }
{
    line.iter().all(|byte| is_text(*byte))
}

/// Is the byte a space, which separates words?
fn is_space(byte: u8) -> bool
    ensures { result ≡ is_space byte }
{
    byte == b' '
}

/// The words of a line, which spaces separate.
pub fn words_of<'a>(alloc: Global, line: &'a [u8]) -> Result<Vec<&'a [u8]>, AllocError>
    ensures { IfOk result (λ words. map (λ word. word.now) words.items ≡ words_in line.now) }
{
    let mut words = Vec::new(alloc);
    put_words(&mut words, line)?;
    Ok(words)
}

/// Puts the words of a line in the place of those of another one, whose room they take: so not each line asks
/// for memory.
pub fn put_words<'a>(words: &mut Vec<&'a [u8]>, line: &'a [u8]) -> Result<(), AllocError>
    ensures { OnOk result (map (λ word. word.now) words.new.items ≡ words_in line.now) }
{
    words.clear();
    for word in line.split(|byte| is_space(*byte)) {
        if !word.is_empty() {
            words.push(word)?;
        }
    }
    Ok(())
}

/// A word as text, to be compared with the words of a scene; where it is no text an empty one, which none of
/// those is.
pub fn text_of(word: &[u8]) -> &str
    ensures { result.now ≡ text_in word.now }
{
    match str::from_utf8(word) {
        Ok(text) => text,
        Err(_) => "",
    }
}
