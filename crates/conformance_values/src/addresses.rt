use isd_as::{AddrFault, AsNumber, IfId, Isd, IsdAs, MAX_TEXT_LEN};
use std::alloc::{AllocError, Global};
use std::process::Abort;
use std::test::Fail;

/// Asserts the printed text of an address, and that no byte after it is written.
fn expect_text(
    rt: &impl Abort,
    alloc: Global,
    address: IsdAs,
    text: &str,
) -> Result<(), AllocError> {
    assert_eq!(rt; format!(in alloc; "{address}")?.as_str(), text);
    let mut room = [b'#'; MAX_TEXT_LEN];
    let len = address.write_text(&mut room);
    assert_eq!(rt; &room[..len], text.as_bytes());
    assert!(rt; room[len..].iter().all(|byte| *byte == b'#'));
    Ok(())
}

#[test]
fn addresses_have_their_bytes_and_texts(rt: HostRuntime) -> Result<(), Fail> {
    let rows = [
        ("1-ff00:0:110", [0, 1, 0xff, 0, 0, 0, 1, 0x10]),
        ("1-4294967295", [0, 1, 0, 0, 0xff, 0xff, 0xff, 0xff]),
        ("1-1:0:0", [0, 1, 0, 1, 0, 0, 0, 0]),
        ("0-0", [0; 8]),
        ("65535-ffff:ffff:ffff", [0xff; 8]),
    ];
    for (text, bytes) in rows {
        let address = IsdAs::parse(text)?;
        assert_eq!(rt; address.to_bytes(), bytes, "{text}");
        assert_eq!(rt; IsdAs::from_bytes(bytes), address, "{text}");
        expect_text(&rt, rt.alloc(), address, text)?;
    }
    Ok(())
}

#[test]
fn other_spellings_print_canonically(rt: HostRuntime) -> Result<(), Fail> {
    let rows = [
        ("1-FF00:0:0110", "1-ff00:0:110"),
        ("1-0:ffff:ffff", "1-4294967295"),
        ("0001-0000000000000000000000042", "1-42"),
    ];
    for (text, printed) in rows {
        assert_eq!(rt;
            format!(in rt.alloc(); "{}", IsdAs::parse(text)?)?.as_str(),
            printed
        );
    }
    Ok(())
}

#[test]
fn the_first_refusal_is_given(rt: HostRuntime) {
    let rows = [
        ("1-4294967296", AddrFault::AsRange),
        ("1-ff00:0", AddrFault::BadGroups),
        ("1", AddrFault::NoDash),
        ("65536-1", AddrFault::IsdRange),
        ("1-", AddrFault::BadDigit),
        ("1-2-3", AddrFault::BadDigit),
        // Which of two refusals comes first.
        ("x", AddrFault::NoDash),
        ("65536-", AddrFault::IsdRange),
        ("x-0:0", AddrFault::BadDigit),
        ("99999999999999999999999x-1", AddrFault::BadDigit),
        ("1-99999999999999999999999x", AddrFault::BadDigit),
        ("1-xyz:0:00000", AddrFault::BadGroups),
        // A group has 1 to 4 characters, of any number of bytes.
        ("1-ééé:0:0", AddrFault::BadDigit),
        ("1-0::0", AddrFault::BadGroups),
        ("1-0:0:0:0", AddrFault::BadGroups),
        ("+1-1", AddrFault::BadDigit),
    ];
    for (text, fault) in rows {
        assert_eq!(rt; IsdAs::parse(text), Err(fault), "{text}");
    }
}

/// Whether an address is greater than `low` and less than `high`.
fn is_between(address: IsdAs, low: &str, high: &str) -> Result<bool, AddrFault> {
    let (low, high) = (IsdAs::parse(low)?, IsdAs::parse(high)?);
    Ok(low < address && address < high)
}

#[test]
fn an_address_has_its_parts(rt: HostRuntime) -> Result<(), Fail> {
    let isd = Isd::parse("1")?;
    let as_number = AsNumber::parse("ff00:0:110")?;
    let address = IsdAs::new(isd, as_number);
    assert_eq!(rt; address.number(), 0x0001_ff00_0000_0110);
    assert!(rt; IsdAs::from_number(address.number()) == address);
    assert!(rt; address.isd() == isd);
    assert!(rt; address.as_number() == as_number);
    assert!(rt; as_number.number() == 0xff00_0000_0110);
    assert!(rt; !address.is_wildcard());
    assert!(rt; !isd.is_wildcard());
    assert!(rt; !as_number.is_wildcard());
    assert!(rt; IsdAs::new(Isd(0), as_number).is_wildcard());
    assert!(rt; AsNumber::new(1 << 48).is_none());
    assert!(rt; is_between(address, "1-2", "2-1")?);

    let shown = format!(in rt.alloc(); "{isd} {as_number} {} {}", IfId(7), AddrFault::NoDash)?;
    assert_eq!(rt;
        shown.as_str(),
        "1 ff00:0:110 7 an address has a '-' between its ISD and its AS number"
    );
    assert!(rt; IfId::NONE.is_none());
    assert!(rt; IfId(7).number() == 7);
    Ok(())
}
