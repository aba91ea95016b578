//! The outputs of cycles as a text gives them: a line for each cycle.

ghost use Rattle.std.specs.Prelude.{◌≡◌, ◌≤◌, ◌<◌, ◌⊎◌, ◌∷◌, ℕ, IfOk, IfErr, IfSome, List, Ok, Err};
ghost use Rattle.std.specs.Prelude.{length as length_of};
ghost use Rattle.std.specs.Borrow.{Bor};
ghost use Rattle.std.specs.List.{position};
ghost use Rattle.std.specs.Option.{option_map};
ghost use Rattle.ec_wire.specs.declared.datagram.TheConstants.{MAX_DATA};
ghost use Rattle.ec_run.specs.Images.{image_in, images_in, images_of, is_line_feed, lines_in, lines_of};
ghost use Rattle.ec_run.specs.Outputs.{image_length, taken_by};
ghost use Rattle.ec_run.specs.declared.images.ImagesFault.TheVariants.{NoMemory};

use ec_map::Item;
use ec_master::Work;
use ec_wire::MAX_DATA;
use hex::FromHexError;
use std::alloc::{AllocFailed, Global};
use std::fmt;
use std::marker::Model;

/// The most bytes of the text of images.
pub const MAX_IMAGES_TEXT: usize = 1_048_576;

/// The outputs of one cycle: the bytes of the items that write, item after item. Contracts see the bytes.
#[derive(Drop)]
pub struct Image {
    bytes: Vec<u8>,
}

impl Model for Image {
    ghost use Rattle.std.specs.Prelude.{List, ℕ};

    ghost Value = { List ℕ };

    ghost view = { λ i. i.bytes.items };
}

impl Image {
    /// The image of these bytes.
    pub fn of(bytes: Vec<u8>) -> Image
        ensures { result ≡ bytes.items }
    {
        Image { bytes }
    }

    /// Its bytes.
    pub fn bytes(&self) -> &[u8]
        ensures { result.now ≡ self.now }
    {
        self.bytes.as_slice()
    }
}

/// What is wrong with a line of images.
#[derive(Clone, Copy, PartialEq, Eq, Debug)]
pub enum ImageFault {
    /// It is no row of bytes, of two hexadecimal digits each.
    NotHex,
    /// It has so many bytes, which are not as many as the items that write have together.
    Length(usize),
}

/// Why a text has no images.
#[derive(Clone, Copy, PartialEq, Eq, Debug)]
pub enum ImagesFault {
    /// It has more than `MAX_IMAGES_TEXT` bytes.
    TooLong,
    /// It has no line.
    Empty,
    /// The first faulty line, from 1.
    Line(usize, ImageFault),
    /// Memory ran out.
    NoMemory,
}

impl<T: Drop> From<AllocFailed<T>> for ImagesFault {
    fn from(_failed: AllocFailed<T>) -> ImagesFault
        ensures { result ≡ NoMemory }
    {
        ImagesFault::NoMemory
    }
}

impl fmt::Display for ImagesFault {
    fn fmt<W: fmt::Write>(&self, f: &mut fmt::Formatter<W>) -> fmt::Result {
        match self {
            ImagesFault::TooLong => write!(f, "TooLong"),
            ImagesFault::Empty => write!(f, "Empty"),
            ImagesFault::Line(line, ImageFault::NotHex) => write!(f, "line {line}: NotHex"),
            ImagesFault::Line(line, ImageFault::Length(_)) => write!(f, "line {line}: Length"),
            ImagesFault::NoMemory => write!(f, "NoMemory"),
        }
    }
}

/// How many bytes an image has for a work: those of the items that write, together.
pub fn image_length(work: &Work) -> usize
    ensures { result ≡ image_length work.now }
{
    let mut length = 0;
    for k in 0..work.len() {
        length += taken_by(work.item(k));
    }
    length
}

/// How many bytes an item takes of an image.
fn taken_by(item: &Item) -> usize
    ensures value { result ≡ taken_by item.now }
    ensures bound { result ≤ MAX_DATA }
{
    let length = item.len();
    if item.kind().command().writes() {
        length
    } else {
        0
    }
}

/// The images of a text, each of so many bytes: a line for each, two hexadecimal digits of either case for
/// each byte. The last line may end with LF or without it. The fault is that of the first faulty line.
pub fn read_images(alloc: Global, text: &[u8], length: usize) -> Result<Vec<Image>, ImagesFault>
    ensures images { IfOk result (λ images. images_of length text.now ≡ Ok images.items) }
    ensures fault { IfErr result (λ fault. (fault ≡ NoMemory) ⊎ (images_of length text.now ≡ Err fault)) }
{
    if text.len() > MAX_IMAGES_TEXT {
        return Err(ImagesFault::TooLong);
    }
    let text = text.strip_suffix(b"\n").unwrap_or(text);
    if text.is_empty() {
        return Err(ImagesFault::Empty);
    }
    read_lines(alloc, text, length)
}

/// The images of the lines of a text.
fn read_lines(alloc: Global, text: &[u8], length: usize) -> Result<Vec<Image>, ImagesFault>
    requires limit { length_of text.now ≤ MAX_IMAGES_TEXT }
    ensures images { IfOk result (λ images. images_in length 1 (lines_of text.now) ≡ Ok images.items) }
    ensures fault { IfErr result (λ fault. (fault ≡ NoMemory)
        ⊎ (images_in length 1 (lines_of text.now) ≡ Err fault)) }
{
    let mut images = Vec::new(alloc);
    let mut number = 0usize;
    let mut rest = Some(text);
    while let Some(text) = rest {
        let (line, behind) = cut_line(text);
        number += 1;
        let image = match read_image(alloc, line, length, number) {
            Ok(image) => image,
            Err(fault) => return Err(fault),
        };
        if images.push(image).is_err() {
            return Err(ImagesFault::NoMemory);
        }
        rest = behind;
    }
    Ok(images)
}

/// The first line of a text, and what stands behind the LF that ends it, if one does.
fn cut_line(text: &[u8]) -> (&[u8], Option<&[u8]>)
    ensures line { lines_of text.now ≡ result.0.now ∷ lines_in (option_map (λ (rest : Bor (List ℕ)). rest.now)
        result.1) }
    ensures shorter { IfSome result.1 (λ rest. length_of rest.now < length_of text.now) }
{
    match end_of(text) {
        Some(at) => (&text[..at], Some(&text[at + 1..])),
        None => (text, None),
    }
}

/// Where the first LF of a text stands, which ends its first line.
fn end_of(text: &[u8]) -> Option<usize>
    ensures place { result ≡ position is_line_feed text.now }
    ensures within { IfSome result (λ at. at < length_of text.now) }
{
    text.iter().position(|byte| is_line_feed(*byte))
}

/// Is the byte LF, which parts two lines?
fn is_line_feed(byte: u8) -> bool
    ensures { result ≡ is_line_feed byte }
{
    byte == b'\n'
}

/// The image that the line with a number spells, which is to have so many bytes.
fn read_image(
    alloc: Global,
    line: &[u8],
    length: usize,
    number: usize,
) -> Result<Image, ImagesFault>
    ensures image { IfOk result (λ image. image_in length number line.now ≡ Ok image) }
    ensures fault { IfErr result (λ fault. (fault ≡ NoMemory)
        ⊎ (image_in length number line.now ≡ Err fault)) }
{
    let bytes = match hex::decode(alloc, line) {
        Ok(bytes) => bytes,
        Err(FromHexError::OutOfMemory) => return Err(ImagesFault::NoMemory),
        Err(_) => return Err(ImagesFault::Line(number, ImageFault::NotHex)),
    };
    if bytes.len() != length {
        return Err(ImagesFault::Line(number, ImageFault::Length(bytes.len())));
    }
    Ok(Image::of(bytes))
}
