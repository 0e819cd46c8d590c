//! Names, and what is none.
use po_name::Name;
use std::test::Fail;

const TEXTS: [(&str, bool); 9] = [
    ("1a", false),
    ("a_1", true),
    ("_", true),
    ("Z9", true),
    ("", false),
    ("a-b", false),
    ("a b", false),
    // 64 letters, and 65
    (
        "abcdefghabcdefghabcdefghabcdefghabcdefghabcdefghabcdefghabcdefgh",
        true,
    ),
    (
        "abcdefghabcdefghabcdefghabcdefghabcdefghabcdefghabcdefghabcdefghi",
        false,
    ),
];

#[test]
fn names(rt: HostRuntime) -> Result<(), Fail> {
    let alloc = rt.alloc();
    for (text, is_name) in TEXTS {
        match Name::new(alloc, text.as_bytes())? {
            Some(name) => {
                assert!(rt; is_name, "{text}");
                assert!(rt; name.bytes() == text.as_bytes(), "{text}");
            }
            None => assert!(rt; !is_name, "{text}"),
        }
    }
    Ok(())
}
