use sk_text::{Word, is_word, words};
use std::alloc::{AllocError, Global};
use std::test::Fail;

const TEXTS: [(&str, &str); 29] = [
    ("", ""),
    ("'", ""),
    ("\u{2019}", ""),
    ("STRASSE don\u{2019}t", "1 strasse 0..7; 2 don't 8..15;"),
    ("straße", "1 strasse 0..7;"),
    ("CAF\u{c9}", "1 caf\u{e9} 0..5;"),
    ("CAFE\u{301}", "1 caf\u{e9} 0..6;"),
    ("rock'n'roll", "1 rock'n'roll 0..11;"),
    ("'tis dogs'", "1 tis 1..4; 2 dogs 5..9;"),
    ("a''b", "1 a 0..1; 2 b 3..4;"),
    ("a'\u{2019}b", "1 a 0..1; 2 b 5..6;"),
    ("a'b'c", "1 a'b'c 0..5;"),
    ("snake_case", "1 snake_case 0..10;"),
    ("a-b", "1 a 0..1; 2 b 2..3;"),
    ("C++", "1 c 0..1;"),
    ("ΣΊΣΥΦΟΣ", "1 σίσυφοσ 0..14;"),
    ("\u{130}", "1 i\u{307} 0..2;"),
    ("\u{d55c}\u{ae00}", "1 \u{d55c}\u{ae00} 0..6;"),
    (
        "\u{1112}\u{1161}\u{11ab}\u{1100}\u{1173}\u{11af}",
        "1 \u{d55c}\u{ae00} 0..18;",
    ),
    ("\u{3b1}\u{345}\u{301}", "1 \u{3ac}\u{3b9} 0..6;"),
    ("\u{1fb4}", "1 \u{3ac}\u{3b9} 0..3;"),
    ("\u{301}a", "1 \u{301}a 0..3;"),
    ("3.14 7's", "1 3 0..1; 2 14 2..4; 3 7's 5..8;"),
    ("x\u{b2} \u{b2}", "1 x\u{b2} 0..3; 2 \u{b2} 4..6;"),
    ("\u{1f600}", ""),
    ("\u{1f600}a\u{1f600}", "1 a 4..5;"),
    ("\u{2160}\u{20dd}", "1 \u{2170}\u{20dd} 0..6;"),
    ("\u{1c5}", "1 \u{1c6} 0..2;"),
    ("\u{fb01}", "1 fi 0..3;"),
];

/// The words on one line: number, term and bounds of each.
fn shown(alloc: Global, found: &[Word]) -> Result<String, AllocError> {
    let mut line = String::new(alloc);
    for word in found {
        if word.number > 1 {
            line.push(' ')?;
        }
        let number = word.number;
        let term = word.term.as_str();
        let from = word.from;
        let to = word.to;
        let piece = format!(in alloc; "{number} {term} {from}..{to};")?;
        line.push_str(piece.as_str())?;
    }
    Ok(line)
}

#[test]
fn texts_and_their_words(rt: HostRuntime) -> Result<(), Fail> {
    for (text, want) in TEXTS {
        assert!(rt; text.len() <= 1_048_576);
        let found = words(rt.alloc(), text)?;
        let line = shown(rt.alloc(), found.as_slice())?;
        assert_eq!(rt; line.as_str(), want, "in {text}");
    }
    Ok(())
}

#[test]
fn one_character_of_each_category(rt: HostRuntime) {
    let inside = [
        'A', 'a', '\u{1c5}', '\u{2b0}', '語', '\u{301}', '\u{903}', '\u{20dd}', '7', '\u{2163}',
        '\u{b2}', '_',
    ];
    let outside = [
        '-', '(', ')', '\u{2018}', '\u{2019}', '\'', '+', '€', '^', '©', ' ', '\u{2028}',
        '\u{2029}', '\u{0}', '\u{200d}', '\u{e000}', '\u{378}',
    ];
    for c in inside {
        assert!(rt; is_word(c), "{c}");
    }
    for c in outside {
        assert!(rt; !is_word(c), "{c}");
    }
}
