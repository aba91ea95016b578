//! The head of an EEPROM: its size and checksum, who made the slave, and its mailboxes.

use crate::numbers::{Eight, Four, Two};
use ec_sii::{Mailboxes, SiiHead};
use ecat_text::Lines;
use std::io::{self, Write};

/// What mailboxes carry, by the bits of the word that says it.
const PROTOCOLS: [(u16, &str); 6] = [
    (1, " AoE"),
    (2, " EoE"),
    (4, " CoE"),
    (8, " FoE"),
    (16, " SoE"),
    (32, " VoE"),
];

/// How many bytes a Kbit is.
const KBIT: u32 = 128;

/// Prints the head of an EEPROM of so many bytes.
pub(crate) fn print_head<W: Write>(
    count: usize,
    head: &SiiHead,
    lines: &mut Lines<'_, W>,
) -> io::Result<()> {
    let size = KBIT * (u32::from(head.size) + 1);
    let version = head.version;
    lines.text(format_args!("# {count} bytes of {size}, version {version}, "))?;
    print_checksum(head, lines)?;
    let identity = &head.identity;
    let vendor = Eight(identity.vendor);
    let product = Eight(identity.product);
    let revision = Eight(identity.revision);
    let serial = Eight(identity.serial);
    lines.text(format_args!("identity {vendor} {product} {revision} {serial}"))?;
    lines.end()?;
    let alias = head.alias;
    lines.text(format_args!("alias {alias}"))?;
    lines.end()?;
    print_mailboxes(&head.mailboxes, lines)
}

/// Prints the checksum, and whether it is that of the first words.
fn print_checksum<W: Write>(head: &SiiHead, lines: &mut Lines<'_, W>) -> io::Result<()> {
    let checksum = Two(head.checksum);
    lines.text(format_args!("checksum {checksum}"))?;
    if head.checksum != head.computed {
        let computed = Two(head.computed);
        lines.text(format_args!(", and its first words have {computed}"))?;
    }
    lines.end()
}

/// Prints where the mailboxes lie and what they carry, if there are any.
fn print_mailboxes<W: Write>(mailboxes: &Mailboxes, lines: &mut Lines<'_, W>) -> io::Result<()> {
    if mailboxes.out_length == 0 && mailboxes.in_length == 0 {
        lines.text("# no mailboxes")?;
        return lines.end();
    }
    let out_start = Four(mailboxes.out_start);
    let out_length = mailboxes.out_length;
    let in_start = Four(mailboxes.in_start);
    let in_length = mailboxes.in_length;
    lines.text(format_args!("# mailboxes {out_start} {out_length} {in_start} {in_length}"))?;
    for (bit, name) in PROTOCOLS {
        if mailboxes.protocols & bit != 0 {
            lines.text(name)?;
        }
    }
    lines.end()
}
