//! The use on the crate's page.

use super::line::{BYTE, exchanging};
use crate::asserts::assert_same;
use ec_map::{Item, Kind, check, check_item, expected};
use std::test::Fail;

#[test]
fn an_exchange_with_two_slaves_counts_six(rt: HostRuntime) -> Result<(), Fail> {
    let first = exchanging(rt.alloc(), 0x1001, BYTE)?;
    let second = exchanging(rt.alloc(), 0x1002, BYTE + 1)?;
    let line = [first, second];
    check(&line)?;
    let item = Item::new(Kind::Lrw, BYTE, &[0xFF, 0xFF])?;
    check_item(&line, &item)?;
    let count = expected(&line, &item);
    assert_same(&rt, count, 6);
    Ok(())
}
