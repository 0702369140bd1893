//! What a name is.
use mtp_codes::Name;
use std::test::*;

#[test]
fn names_are_1_to_32_letters_digits_underscores_dashes_and_dots(rt: HostRuntime) {
    let cases: [(&str, bool); 8] = [
        ("M1", true),
        ("a_b-c.D9", true),
        ("abcdefghijklmnopqrstuvwxyz012345", true),
        ("abcdefghijklmnopqrstuvwxyz0123456", false),
        ("", false),
        ("M 1", false),
        ("M/1", false),
        ("Kühler", false),
    ];
    for (text, is_name) in cases {
        let name = Name::of_bytes(text.as_bytes());
        assert!(rt; name.is_some() == is_name);
        if let Some(name) = name {
            assert!(rt; name.as_str() == text);
        }
    }
}
