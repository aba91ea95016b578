//! How many slaves a ring takes.

use crate::asserts::assert_same;
use crate::ring::line::slaves;
use ec_regs::AlState;
use ec_ring::{MAX_LINKS, MAX_SLAVES, Ring, RingFault};

#[test]
fn slaves_above_the_limit_are_handed_back(rt: HostRuntime) {
    let most = slaves(&rt, rt.alloc(), &[AlState::Init; MAX_SLAVES]);
    assert!(rt; Ring::new(most).is_ok());
    let too_many = slaves(&rt, rt.alloc(), &[AlState::Init; MAX_LINKS]);
    match Ring::new(too_many) {
        Ok(_) => panic!(rt; "257 slaves were taken"),
        Err((back, fault)) => {
            assert_same(&rt, fault, RingFault::TooMany);
            assert!(rt; back.len() == 257);
            assert_same(&rt, back[256].controller().station(), 0x1101);
        }
    }
}
