//! Tests of what no clause says: a push succeeds if places are free, and the order in which values
//! come out while there are several passes.

use crate::{Inbox, Receiver, Sender};
use std::test::Fail;

#[test]
fn an_inbox_of_one_place_hands_the_second_value_back(rt: HostRuntime) -> Result<(), Fail> {
    let (inbox, mut sender, mut receiver) = Inbox::new(rt.alloc(), 1)?;
    assert_eq!(rt; inbox.push(&rt, &mut sender, 4u8), Ok(()));
    assert_eq!(rt; inbox.push(&rt, &mut sender, 5), Err(5));
    assert_eq!(rt; inbox.pop(&rt, &mut receiver), Some(4));
    assert_eq!(rt; inbox.pop(&rt, &mut receiver), None);
    Ok(())
}

#[test]
fn values_of_two_senders_come_out_in_order(rt: HostRuntime) -> Result<(), Fail> {
    let (inbox, mut sender, receiver) = Inbox::new(rt.alloc(), 8)?;
    let further = inbox.split(&mut sender);
    let mut first = Sender::new(&inbox, sender);
    let mut second = Sender::new(&inbox, further);
    let mut intake = Receiver::new(&inbox, receiver);
    for number in 0..4u8 {
        assert_eq!(rt; first.push(&rt, number), Ok(()));
        assert_eq!(rt; second.push(&rt, number + 10), Ok(()));
    }
    assert_eq!(rt; first.push(&rt, 4), Err(4));
    for number in 0..4u8 {
        assert_eq!(rt; intake.pop(&rt), Some(number));
        assert_eq!(rt; intake.pop(&rt), Some(number + 10));
    }
    assert_eq!(rt; intake.pop(&rt), None);
    Ok(())
}

#[test]
fn what_is_left_comes_out_after_the_senders_have_ended(rt: HostRuntime) -> Result<(), Fail> {
    let (inbox, mut first, mut receiver) = Inbox::new(rt.alloc(), 2)?;
    let mut second = inbox.split(&mut first);
    assert_eq!(rt; inbox.push(&rt, &mut first, 1u8), Ok(()));
    assert_eq!(rt; inbox.push(&rt, &mut second, 2), Ok(()));
    inbox.take_in(&mut first, second);
    inbox.take_in(&mut receiver, first);
    assert_eq!(rt; inbox.pop(&rt, &mut receiver), Some(1));
    assert_eq!(rt; inbox.pop(&rt, &mut receiver), Some(2));
    assert_eq!(rt; inbox.pop(&rt, &mut receiver), None);
    Ok(())
}
