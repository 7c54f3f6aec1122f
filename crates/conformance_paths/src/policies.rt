use bumpalo::Bump;
use isd_as::{IfId, IsdAs};
use policy_expr::{Acl, AclText, Denied, PolicyError, PolicyFault, Seq, WalkHop};
use refusal::OrMemory;
use std::alloc::{AllocError, Global};
use std::process::Abort;
use std::test::Fail;

/// A hop of the AS of this number in ISD 1.
fn hop(as_number: u64, ingress: u16, egress: u16) -> WalkHop {
    WalkHop {
        ia: IsdAs::from_number(0x0001_0000_0000_0000 + as_number % 0x1_0000_0000_0000),
        ingress: IfId(ingress),
        egress: IfId(egress),
    }
}

/// A walk of hops of these ISDs.
fn in_isds(alloc: Global, isds: &[u16]) -> Result<Vec<WalkHop>, AllocError> {
    let mut walk = Vec::new(alloc);
    for isd in isds {
        walk.push(WalkHop {
            ia: IsdAs::from_number(u64::from(*isd) << 48),
            ingress: IfId(0),
            egress: IfId(0),
        })?;
    }
    Ok(walk)
}

/// Asserts that a text is that of a sequence that prints in this way, has the first walk as a word,
/// and not the second.
fn expect_sequence(
    rt: &impl Abort,
    alloc: Global,
    text: &str,
    printed: &str,
    word: &[WalkHop],
    other: &[WalkHop],
) -> Result<(), Fail> {
    let sequence = Seq::parse(alloc, text)?;
    assert_eq!(rt; sequence.print(alloc)?.as_str(), printed);
    assert!(rt; sequence.matches(word), "{text}");
    assert!(rt; !sequence.matches(other), "{text}");
    Ok(())
}

/// A hop at which walks may end.
fn last_hop() -> WalkHop {
    hop(0xff00_0000_0111, 2, 0)
}

#[test]
fn any_hops_and_then_one_as_are_a_sequence(rt: HostRuntime) -> Result<(), Fail> {
    let (text, printed) = ("(0 *)  1-FF00:0:111#0", "0* 1-ff00:0:111");
    let two = [hop(0xff00_0000_0110, 0, 1), last_hop()];
    let elsewhere = [last_hop(), hop(0xff00_0000_0112, 1, 0)];
    let mut most = [hop(0xff00_0000_0110, 3, 4); 64];
    most[63] = last_hop();
    expect_sequence(&rt, rt.alloc(), text, printed, &two, &[])?;
    expect_sequence(&rt, rt.alloc(), text, printed, &most, &elsewhere)
}

/// And a walk of two hops is no word of one predicate.
#[test]
fn either_binds_tighter_than_following(rt: HostRuntime) -> Result<(), Fail> {
    let one = [hop(0xff00_0000_0110, 0, 1)];
    let two = [hop(0xff00_0000_0110, 0, 1), hop(0xff00_0000_0112, 2, 0)];
    let swapped = [hop(0xff00_0000_0112, 0, 1), hop(0xff00_0000_0110, 2, 0)];
    let text = "1-ff00:0:110 | 2 0";
    expect_sequence(&rt, rt.alloc(), text, "1-ff00:0:110|2 0", &two, &swapped)?;
    expect_sequence(&rt, rt.alloc(), "0", "0", &one, &two)
}

/// Two repetitions, one after the other, of an item that may be absent: words by their ISDs.
#[test]
fn an_item_of_a_repetition_may_be_absent(rt: HostRuntime) -> Result<(), Fail> {
    let alloc = rt.alloc();
    let text = "(1? 2)+ 1*";
    let rows: [(&[u16], &[u16]); 4] = [
        (&[2], &[]),
        (&[1, 2], &[1]),
        (&[2, 1, 2], &[1, 1, 2]),
        (&[2, 2, 1, 1], &[2, 1, 1, 2]),
    ];
    for (word, other) in rows {
        let (word, other) = (in_isds(alloc, word)?, in_isds(alloc, other)?);
        expect_sequence(&rt, alloc, text, text, &word, &other)?;
    }
    Ok(())
}

/// The text, repeated `count` times.
fn times(alloc: Global, text: &str, count: usize) -> Result<String, AllocError> {
    let mut all = String::new(alloc);
    for _ in 0..count {
        all.push_str(text)?;
    }
    Ok(all)
}

/// `0* 1-100`, repeated and followed by `1-101`, all of that repeated and followed by `1-102`, and
/// so on.
fn levels_text(alloc: Global, levels: u64) -> Result<String, AllocError> {
    let mut text = "0* 1-100".to_string(alloc)?;
    for level in 0..levels {
        let last = level % 1000 + 101;
        text = format!(in alloc; "({text})* 1-{last}")?;
    }
    Ok(text)
}

/// The item `0` with 255 signs.
fn pluses(alloc: Global) -> Result<String, AllocError> {
    let signs = times(alloc, "+", 255)?;
    format!(in alloc; "0{signs}")
}

/// The item `1-100` in 32 parentheses, each repeated.
fn stars(alloc: Global) -> Result<String, AllocError> {
    let open = times(alloc, "(", 32)?;
    let closed = times(alloc, ")*", 32)?;
    format!(in alloc; "{open}1-100{closed}")
}

/// The printed text of `stars`.
fn printed_stars(alloc: Global) -> Result<String, AllocError> {
    let signs = times(alloc, "*", 32)?;
    format!(in alloc; "1-100{signs}")
}

/// The item `0` in `count` pairs of parentheses.
fn nested(alloc: Global, depth: usize) -> Result<String, AllocError> {
    let open = times(alloc, "(", depth)?;
    let closed = times(alloc, ")", depth)?;
    format!(in alloc; "{open}0{closed}")
}

/// A sequence of 254 nodes, and then this text.
fn long_text(alloc: Global, last: &str) -> Result<String, AllocError> {
    let pairs = times(alloc, "1|0 ", 63)?;
    format!(in alloc; "{pairs}{last}")
}

/// A word of the 32 levels: 32 hops of one AS, and then one hop of each level's AS.
fn levels_word() -> [WalkHop; 64] {
    let mut word = [hop(100, 0, 0); 64];
    let mut as_number = 100;
    for place in word.iter_mut().skip(32) {
        as_number = as_number % 1000 + 1;
        *place = hop(as_number, 0, 0);
    }
    word
}

/// Walks of 64 hops, at sequences whose words could be looked for in very many ways.
#[test]
fn nested_repetitions_are_answered_at_once(rt: HostRuntime) -> Result<(), Fail> {
    let alloc = rt.alloc();
    let same = [hop(100, 0, 0); 64];
    let mut other = [hop(100, 0, 0); 64];
    other[63] = hop(101, 0, 0);
    let text = pluses(alloc)?;
    expect_sequence(&rt, alloc, text.as_str(), text.as_str(), &same, &[])?;
    let text = stars(alloc)?;
    let printed = printed_stars(alloc)?;
    expect_sequence(&rt, alloc, text.as_str(), printed.as_str(), &same, &other)?;
    let text = levels_text(alloc, 32)?;
    expect_sequence(
        &rt,
        alloc,
        text.as_str(),
        text.as_str(),
        &levels_word(),
        &same,
    )
}

/// The refusal of a text as a sequence.
fn refused(fault: PolicyFault) -> Option<PolicyError> {
    Some(OrMemory::Refused(fault))
}

/// 32 open parentheses, and 256 nodes.
#[test]
fn a_sequence_has_limits(rt: HostRuntime) -> Result<(), Fail> {
    let alloc = rt.alloc();
    let deep = nested(alloc, 32)?;
    expect_sequence(&rt, alloc, deep.as_str(), "0", &[last_hop()], &[])?;
    let deeper = nested(alloc, 33)?;
    assert!(rt; Seq::parse(alloc, deeper.as_str()).err() == refused(PolicyFault::TooDeep));
    let long = long_text(alloc, "0 1")?;
    let (walk, short) = ([last_hop(); 65], [last_hop(); 64]);
    expect_sequence(&rt, alloc, long.as_str(), long.as_str(), &walk, &short)?;
    let longer = long_text(alloc, "0 1 0")?;
    assert!(rt; Seq::parse(alloc, longer.as_str()).err() == refused(PolicyFault::TooLarge));
    Ok(())
}

/// A copy of a sequence that was read into an arena.
fn sequence_copied(alloc: Global, text: &str) -> Result<Seq<Global>, PolicyError> {
    let bump = Bump::new(alloc);
    let sequence = Seq::parse(&bump, text)?;
    Ok(sequence.clone_in(alloc)?)
}

/// A copy of a list that was read into an arena.
fn list_copied(alloc: Global, text: &AclText) -> Result<Acl<Global>, PolicyError> {
    let bump = Bump::new(alloc);
    let list = Acl::parse(&bump, text)?;
    Ok(list.clone_in(alloc)?)
}

/// A list that decides about one interface, and a sequence.
#[test]
fn copies_outlive_the_arena_of_what_was_read(rt: HostRuntime) -> Result<(), Fail> {
    let alloc = rt.alloc();
    let sequence = sequence_copied(alloc, "1 | 2 0")?;
    assert_eq!(rt; sequence.print(alloc)?.as_str(), "1|2 0");
    let mut text = AclText::new(alloc);
    text.push(alloc, "- 1-ff00:0:133#2,0")?;
    text.push(alloc, " + ")?;
    assert_eq!(rt; text.texts().len(), 2);
    let list = list_copied(alloc, &text)?;
    let denied = [hop(0xff00_0000_0133, 1, 2), hop(0xff00_0000_0133, 2, 1)];
    assert_eq!(rt; list.verdict(&denied), Err(Denied { hop: 1, entry: 0 }));
    let allowed = [hop(0xff00_0000_0133, 1, 2), hop(0xff00_0000_0134, 2, 1)];
    assert_eq!(rt; list.verdict(&allowed), Ok(()));
    assert_eq!(rt; list.entries().len(), 2);
    Ok(())
}

/// The refusal of a list of 255 entries and this many defaults, if it is refused.
fn refusal_of_long_list(alloc: Global, defaults: usize) -> Result<Option<PolicyError>, AllocError> {
    let mut list = AclText::new(alloc);
    for _ in 0..255 {
        list.push(alloc, "- 1")?;
    }
    for _ in 0..defaults {
        list.push(alloc, "+")?;
    }
    Ok(Acl::parse(alloc, &list).err())
}

/// A list with no entry has no default either, and one that is too long is refused for that.
#[test]
fn a_list_has_at_most_256_entries(rt: HostRuntime) -> Result<(), Fail> {
    assert!(rt; refusal_of_long_list(rt.alloc(), 1)?.is_none());
    assert!(rt; refusal_of_long_list(rt.alloc(), 2)? == refused(PolicyFault::TooLarge));
    let empty = AclText::new(rt.alloc());
    assert!(rt; Acl::parse(rt.alloc(), &empty).err() == refused(PolicyFault::NoDefault));
    Ok(())
}
