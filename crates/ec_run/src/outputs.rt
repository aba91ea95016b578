//! The outputs of a cycle.

ghost use Rattle.std.specs.Prelude.{◌≡◌, ◌<◌, Some, drop, length, map, slice_get};
ghost use Rattle.ec_run.specs.Outputs.{filled, filled_item, image_of, left_by, numbered};
ghost use Rattle.ec_run.specs.Outputs.{outputs_at};

use crate::images::Image;
use ec_map::Item;
use ec_master::Work;

/// What the items of a cycle send.
#[derive(Clone, Copy)]
pub enum Outputs<'a> {
    /// The data that they were made with.
    Kept,
    /// The number of the cycle in the first bytes of each item that writes, at most eight, the lowest byte
    /// first; behind them the data that they were made with.
    Count,
    /// In each cycle the next of these images, in the items that write, one item after the other; behind the
    /// last image comes the first again. Where an image ends, the data stay that they were made with.
    Images(&'a [Image]),
}

impl Outputs<'_> {
    /// The items of a work with the outputs of the cycle with this number.
    pub fn of(self, cycle: u64, asked: &Work) -> Work
        ensures { result ≡ outputs_at self.entry cycle asked.now }
    {
        let mut work = Work::new();
        self.put(cycle, asked, &mut work);
        work
    }

    /// Makes a work the items of another one with the outputs of the cycle with this number, whatever it
    /// held.
    pub fn put(self, cycle: u64, asked: &Work, work: &mut Work)
        ensures { work.new ≡ outputs_at self.entry cycle asked.now }
    {
        work.assign(asked);
        match self {
            Outputs::Kept => {}
            Outputs::Count => number_all(cycle, work),
            Outputs::Images(images) => fill_all(image_of(images, cycle), work),
        }
    }
}

/// Puts a number into the first bytes of the items of a work that write.
fn number_all(number: u64, work: &mut Work)
    ensures { work.new ≡ map (numbered number) work.old }
{
    for k in 0..work.len() {
        number_item(number, work.item_mut(k));
    }
}

/// Puts a number into the first bytes of an item if it writes.
fn number_item(number: u64, item: &mut Item)
    ensures { item.new ≡ numbered number item.old }
{
    if item.kind().command().writes() {
        item.put_front(&number.to_le_bytes());
    }
}

/// The image of the cycle with a number; nothing where there is none.
fn image_of(images: &[Image], cycle: u64) -> &[u8]
    ensures { result.now ≡ image_of images.now cycle }
{
    if images.is_empty() {
        return &[];
    }
    let place = cycle % images.len() as u64;
    image_at(images, place as usize).bytes()
}

/// The image at a place.
fn image_at(images: &[Image], place: usize) -> &Image
    requires { place < length images.now }
    ensures { slice_get images.now place ≡ Some result.now }
{
    &images[place]
}

/// Gives the items of a work that write their data from an image, one after the other.
pub(crate) fn fill_all(image: &[u8], work: &mut Work)
    ensures { work.new ≡ filled image.now work.old }
{
    let mut rest = image;
    for k in 0..work.len() {
        let behind = left_by(rest, work.item(k));
        fill_item(rest, work.item_mut(k));
        rest = behind;
    }
}

/// Gives an item its data from the front of an image if it writes.
fn fill_item(image: &[u8], item: &mut Item)
    ensures { item.new ≡ filled_item image.now item.old }
{
    if item.kind().command().writes() {
        item.put_front(image);
    }
}

/// What an item leaves of an image for those behind it.
fn left_by<'a>(image: &'a [u8], asked: &Item) -> &'a [u8]
    ensures { result.now ≡ left_by image.now asked.now }
{
    if asked.kind().command().writes() {
        behind(image, asked.len())
    } else {
        image
    }
}

/// What of bytes stands behind the first so many.
fn behind(bytes: &[u8], count: usize) -> &[u8]
    ensures { result.now ≡ drop count bytes.now }
{
    if count <= bytes.len() {
        bytes.split_at(count).1
    } else {
        &[]
    }
}
