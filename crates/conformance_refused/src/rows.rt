//! Values that are read and cloned.

use crate::calls::{Call, SequenceRow, hop};
use crate::places::expect_all;
use isd_as::{IfId, IsdAs};
use policy_expr::{Acl, AclText, OptionText, Policy, PolicyOption, PolicyText, Seq, WalkHop};
use std::alloc::{AllocError, Global};
use std::test::Fail;

/// A hop of this AS of ISD 1, without interfaces.
fn within(as_number: u64) -> WalkHop {
    WalkHop {
        ia: IsdAs::from_number(0x0001_ff00_0000_0000 | as_number),
        ingress: IfId(0),
        egress: IfId(0),
    }
}

/// This part of a sequence so many times, at least once.
pub(crate) fn repeated(alloc: Global, part: &str, times: usize) -> Result<String, AllocError> {
    let mut text = String::from_str(alloc, part)?;
    for _ in 1..times {
        write!(text, " {part}")?;
    }
    Ok(text)
}

/// Sequences: any hops and then one AS; two hops by AS or ISD; one hop; and sixteen hops, each of
/// an ISD or any, whose tree and table grow several times.
#[test]
fn sequences(rt: HostRuntime) -> Result<(), Fail> {
    let alloc = rt.alloc();
    let long = repeated(alloc, "1|0", 16)?;
    let any_then_one = [within(0x110), within(0x111)];
    let either_then_any = [within(0x110), within(0x112)];
    let sixteen = [within(0x110); 16];
    let rows: [(&str, &str, &[WalkHop], u64); 4] = [
        ("(0 *)  1-FF00:0:111#0", "0* 1-ff00:0:111", &any_then_one, 4),
        (
            "1-ff00:0:110 | 2 0",
            "1-ff00:0:110|2 0",
            &either_then_any,
            4,
        ),
        ("0", "0", &sixteen[..1], 1),
        (long.as_str(), long.as_str(), &sixteen, 63),
    ];
    for (text, printed, word, least) in rows {
        let row = SequenceRow {
            text,
            printed,
            word,
            other: &[within(0x112); 3],
        };
        expect_all(&rt, alloc, Call::ReadSequence(row), least);
        let sequence = Seq::parse(alloc, text)?;
        expect_all(&rt, alloc, Call::CloneSequence(&sequence, row), least);
    }
    Ok(())
}

/// The text of a list that denies only the way in by interface 2 of one AS.
pub(crate) fn list_text(alloc: Global) -> Result<AclText, AllocError> {
    let mut text = AclText::new(alloc);
    text.push(alloc, "- 1-ff00:0:133#2,0")?;
    text.push(alloc, " + ")?;
    Ok(text)
}

/// The texts of that list and of a sequence of two hops.
fn policy_text(list: &AclText) -> PolicyText<'_> {
    PolicyText {
        acl: Some(list),
        sequence: Some("0 0"),
    }
}

#[test]
fn lists(rt: HostRuntime) -> Result<(), Fail> {
    let alloc = rt.alloc();
    let text = list_text(alloc)?;
    expect_all(&rt, alloc, Call::ReadList(&text), 1);
    let list = Acl::parse(alloc, &text)?;
    assert_eq!(rt; list.verdict(&[hop(1, 2), hop(2, 1)]).is_err(), true);
    expect_all(&rt, alloc, Call::CloneList(&list), 1);
    Ok(())
}

#[test]
fn policies(rt: HostRuntime) -> Result<(), Fail> {
    let alloc = rt.alloc();
    let list = list_text(alloc)?;
    let text = policy_text(&list);
    expect_all(&rt, alloc, Call::ReadPolicy(text), 2);
    let policy = Policy::parse(alloc, &text)?;
    expect_all(&rt, alloc, Call::ClonePolicy(&policy), 2);
    Ok(())
}

#[test]
fn options(rt: HostRuntime) -> Result<(), Fail> {
    let alloc = rt.alloc();
    let list = list_text(alloc)?;
    let texts = [1u32, 5].map(|weight| OptionText {
        text: policy_text(&list),
        weight,
    });
    expect_all(&rt, alloc, Call::ReadOptions(&texts), 5);
    let option = PolicyOption {
        policy: Policy::parse(alloc, &policy_text(&list))?,
        weight: 5,
    };
    expect_all(&rt, alloc, Call::CloneOption(&option), 2);
    Ok(())
}
