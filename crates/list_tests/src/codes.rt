//! Codes keep their spelling, tell whether they have the shape of a code, and are copied with their heads.

use std::test::Fail;
use stock_nums::code::{Code, has_code_shape};
use stock_nums::head::Head;
use stock_nums::numbers::{AccountNo, RecordNo};

// A spelling, another one, and whether the first has the shape of a code.
const SPELLINGS: [(&str, &str, bool); 2] = [
    ("TEE-1.kg", "tee-1.kg", true),
    (
        "1234567890123456789012345",
        "123456789012345678901234",
        false,
    ),
];

#[test]
fn keep_their_spelling(rt: HostRuntime) -> Result<(), Fail> {
    let alloc = rt.alloc();
    for (text, other, is_well_formed) in SPELLINGS {
        let code = Code::of(alloc, text)?;
        let copy = code.copy(alloc)?;
        assert_eq!(rt; copy.text(), text);
        assert!(rt; code == copy, "at {text}");
        assert!(rt; code != Code::of(alloc, other)?, "at {text}");
        assert_eq!(rt; code.is_well_formed(), is_well_formed, "at {text}");
    }
    Ok(())
}

#[test]
fn have_a_shape(rt: HostRuntime) {
    let table = [
        ("A", true),
        ("az_AZ-09.", true),
        ("123456789012345678901234", true),
        ("1234567890123456789012345", false),
        ("", false),
        ("a b", false),
        ("a/b", false),
        ("Tür", false),
    ];
    for (text, want) in table {
        assert_eq!(rt; has_code_shape(text), want, "at {text}");
    }
}

#[test]
fn are_copied_with_their_heads(rt: HostRuntime) -> Result<(), Fail> {
    let head = Head {
        number: RecordNo(7),
        code: Code::of(rt.alloc(), "MAIN")?,
        account: Some(AccountNo(1400)),
    };
    let copy = head.copy(rt.alloc())?;
    assert_eq!(rt; copy.number, RecordNo(7));
    assert_eq!(rt; copy.code.text(), "MAIN");
    assert_eq!(rt; copy.account, Some(AccountNo(1400)));
    Ok(())
}
