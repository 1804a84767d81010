//! Tables of words, with what the rule of good words says of them, worked by hand.

use crate::{WordsFault, one_word, sheet_words, three_words, two_words};
use std::alloc::Global;
use std::test::Fail;

// Words, and the name and the flag that they give; none where they are not good.
type SheetCase = (&'static [&'static str], Option<(&'static str, bool)>);

const SHEETS: [SheetCase; 64] = [
    (&[], None),
    (&["a"], Some(("a", false))),
    (&["a", "b"], None),
    (&["--csv", "a"], Some(("a", true))),
    (&["a", "--csv"], Some(("a", true))),
    (&["--csv"], None),
    (&["--csv", "--csv"], None),
    (&["--csv", "--csv", "a"], None),
    (&["--csv", "a", "--csv"], None),
    (&["a", "--csv", "--csv"], None),
    (&["--", "--csv"], Some(("--csv", false))),
    (&["--csv", "--", "x"], Some(("x", true))),
    (&["--csv", "--", "--csv"], Some(("--csv", true))),
    (&["--", "--csv", "--csv"], None),
    (&["--"], None),
    (&["--", "--"], Some(("--", false))),
    (&["--", "a", "--"], None),
    (&["a", "--"], Some(("a", false))),
    (&["a", "--", "--csv"], None),
    (&["a", "--csv", "--"], Some(("a", true))),
    (&["--", "-x"], Some(("-x", false))),
    (&["--", "-"], Some(("-", false))),
    (&["--", ""], Some(("", false))),
    (&["-"], Some(("-", false))),
    (&["-", "--csv"], Some(("-", true))),
    (&[""], Some(("", false))),
    (&["", ""], None),
    (&["", "--csv"], Some(("", true))),
    (&["--csv=1", "a"], None),
    (&["--csv=", "a"], None),
    (&["--csv=true", "a"], None),
    (&["a", "--csv=1"], None),
    (&["-x"], None),
    (&["-x", "a"], None),
    (&["a", "-x"], None),
    (&["-c", "a"], None),
    (&["-csv", "a"], None),
    (&["--help"], None),
    (&["a", "--help"], None),
    (&["-h", "a"], None),
    (&["--version", "a"], None),
    (&["-V", "a"], None),
    (&["help"], Some(("help", false))),
    (&["help", "a"], None),
    (&["--cs", "a"], None),
    (&["--c", "a"], None),
    (&["--csvx", "a"], None),
    (&["--CSV", "a"], None),
    (&["—csv"], Some(("—csv", false))),
    (&["−−csv", "--csv"], Some(("−−csv", true))),
    (&["a\0b"], Some(("a\0b", false))),
    (&["a\nb"], Some(("a\nb", false))),
    (&["\0"], Some(("\0", false))),
    (&["--csv\0", "a"], None),
    (&["--csv\n", "a"], None),
    (&["-\n", "a"], None),
    (&["-é", "a"], None),
    (&["--é", "a"], None),
    (&["-1"], None),
    (&["-1.5", "a"], None),
    (&["--=x", "a"], None),
    (&["---", "a"], None),
    (&[" --csv"], Some((" --csv", false))),
    (&["=", "--csv"], Some(("=", true))),
];

// Words, and the two names that they give; none where they are not good.
type TwoCase = (
    &'static [&'static str],
    Option<(&'static str, &'static str)>,
);

const TWOS: [TwoCase; 22] = [
    (&[], None),
    (&["a"], None),
    (&["a", "b"], Some(("a", "b"))),
    (&["a", "b", "c"], None),
    (&["--csv", "a", "b"], None),
    (&["a", "--csv"], None),
    (&["a", "b", "--csv"], None),
    (&["--", "--csv", "-x"], Some(("--csv", "-x"))),
    (&["a", "--", "-b"], Some(("a", "-b"))),
    (&["a", "b", "--"], Some(("a", "b"))),
    (&["a", "b", "--", "c"], None),
    (&["a", "--", "--"], Some(("a", "--"))),
    (&["--", "--", "--"], Some(("--", "--"))),
    (&["--", "a"], None),
    (&["-", "-"], Some(("-", "-"))),
    (&["", ""], Some(("", ""))),
    (&["", "-", ""], None),
    (&["a", "-9"], None),
    (&["a", "--second", "b"], None),
    (&["--first=a", "b"], None),
    (&["a", "--help"], None),
    (&["—", "\n"], Some(("—", "\n"))),
];

// Words, and the one name that they give; none where they are not good.
type OneCase = (&'static [&'static str], Option<&'static str>);

const ONES: [OneCase; 7] = [
    (&[], None),
    (&["a"], Some("a")),
    (&["a", "b"], None),
    (&["--csv", "a"], None),
    (&["--", "--csv"], Some("--csv")),
    (&["-"], Some("-")),
    (&["-x"], None),
];

// Words, and the three names that they give; none where they are not good.
type ThreeCase = (
    &'static [&'static str],
    Option<(&'static str, &'static str, &'static str)>,
);

const THREES: [ThreeCase; 8] = [
    (&["a", "b"], None),
    (&["a", "b", "c"], Some(("a", "b", "c"))),
    (&["a", "b", "c", "d"], None),
    (&["a", "b", "-8"], None),
    (&["a", "b", "--", "-8"], Some(("a", "b", "-8"))),
    (&["a", "--", "b", "--"], Some(("a", "b", "--"))),
    (&["a", "b", "c", "--csv"], None),
    (&["", "-", ""], Some(("", "-", ""))),
];

fn words_of(alloc: Global, words: &[&str]) -> Result<Vec<String>, Fail> {
    let mut list = Vec::new(alloc);
    for word in words {
        list.push(String::from_str(alloc, word)?)?;
    }
    Ok(list)
}

#[test]
fn one_name_and_the_flag(rt: HostRuntime) -> Result<(), Fail> {
    for (words, wanted) in SHEETS {
        let list = words_of(rt.alloc(), words)?;
        let read = match sheet_words(rt.alloc(), &list) {
            Ok(read) => Ok((read.sheet, read.csv)),
            Err(fault) => Err(fault),
        };
        assert_eq!(rt; read, wanted.ok_or(WordsFault::Usage), "at {words:?}");
    }
    Ok(())
}

#[test]
fn two_names(rt: HostRuntime) -> Result<(), Fail> {
    for (words, wanted) in TWOS {
        let list = words_of(rt.alloc(), words)?;
        let read = match two_words(rt.alloc(), &list) {
            Ok(read) => Ok((read.first, read.second)),
            Err(fault) => Err(fault),
        };
        assert_eq!(rt; read, wanted.ok_or(WordsFault::Usage), "at {words:?}");
    }
    Ok(())
}

#[test]
fn three_names(rt: HostRuntime) -> Result<(), Fail> {
    for (words, wanted) in THREES {
        let list = words_of(rt.alloc(), words)?;
        let read = match three_words(rt.alloc(), &list) {
            Ok(read) => Ok((read.first, read.second, read.third)),
            Err(fault) => Err(fault),
        };
        assert_eq!(rt; read, wanted.ok_or(WordsFault::Usage), "at {words:?}");
    }
    Ok(())
}

#[test]
fn one_name(rt: HostRuntime) -> Result<(), Fail> {
    for (words, wanted) in ONES {
        let list = words_of(rt.alloc(), words)?;
        let read = one_word(rt.alloc(), &list);
        assert_eq!(rt; read, wanted.ok_or(WordsFault::Usage), "at {words:?}");
    }
    Ok(())
}
