use crate::{count_words, next_word, skip_words, word};

#[test]
fn words_are_found(rt: HostRuntime) {
    let rows: [(&str, usize, &str, &str); 7] = [
        ("", 0, "", ""),
        (" \t ", 0, "", ""),
        ("rule", 1, "rule", ""),
        ("rule new", 2, "rule", "new"),
        ("\t rule\t\tnew any  ", 3, "rule", "new"),
        ("a b c d", 4, "a", "b"),
        ("no\u{a0}blank", 1, "no\u{a0}blank", ""),
    ];
    for (line, count, first, second) in rows {
        let bytes = line.as_bytes();
        assert_eq!(rt; count_words(bytes), count, "of {line}");
        assert_eq!(rt; word(bytes, 0), first.as_bytes(), "of {line}");
        assert_eq!(rt; word(bytes, 1), second.as_bytes(), "of {line}");
        assert_eq!(rt;
            word(skip_words(bytes, 1), 0),
            second.as_bytes(),
            "of {line}"
        );
    }
}

#[test]
fn what_follows_a_word_is_told(rt: HostRuntime) {
    match next_word(b"  a  b ") {
        Some((word, behind)) => {
            assert_eq!(rt; word, b"a".as_slice());
            assert_eq!(rt; behind, b"  b ".as_slice());
        }
        None => assert!(rt; false),
    }
    assert!(rt; next_word(b" \t").is_none());
}
