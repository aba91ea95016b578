//! What an item sent and took.

ghost use Rattle.std.specs.Prelude.{◌≡◌, Some};
ghost use Rattle.std.specs.Option.{option_map};
ghost use Rattle.ecat_control.specs.Images.{sent_by, sent_of, taken_by, taken_of};

use ec_map::Item;
use ec_master::Work;

/// The outputs that an item of a work sent, if there is one of this number and it writes.
pub fn sent_by(work: &Work, item: usize) -> Option<&[u8]>
    ensures { option_map (λ bytes. bytes.now) result ≡ sent_by work.now item }
{
    if item < work.len() {
        sent_of(work.item(item))
    } else {
        None
    }
}

/// The inputs that an item of a work took, if there is one of this number and it reads.
pub fn taken_by(work: &Work, item: usize) -> Option<&[u8]>
    ensures { option_map (λ bytes. bytes.now) result ≡ taken_by work.now item }
{
    if item < work.len() {
        taken_of(work.item(item))
    } else {
        None
    }
}

/// The outputs that an item sent, if it writes.
fn sent_of(item: &Item) -> Option<&[u8]>
    ensures { option_map (λ bytes. bytes.now) result ≡ sent_of (Some item.now) }
{
    if item.kind().command().writes() {
        Some(item.data())
    } else {
        None
    }
}

/// The inputs that an item took, if it reads.
fn taken_of(item: &Item) -> Option<&[u8]>
    ensures { option_map (λ bytes. bytes.now) result ≡ taken_of (Some item.now) }
{
    if item.kind().command().reads() {
        Some(item.data())
    } else {
        None
    }
}
