//! The words of each kind of command.

ghost use Rattle.std.specs.Prelude.{◌≡◌, ◌∷◌, ◌==◌, [], IfErr, IfOk, false, true};
ghost use Rattle.prta_words.specs.Words.{are_good, flag_count, positional_words, texts};

use crate::commands::{pair_command, sheet_command, single_command, triple_command};
use crate::fault::{WordsFault, fault_from};
use std::alloc::Global;

/// A name, and whether the flag `--csv` stands with it.
#[derive(Clone, Copy, Debug)]
pub struct SheetWords<'a> {
    /// The name of the sheet.
    pub sheet: &'a str,
    /// Whether the flag `--csv` is among the words.
    pub csv: bool,
}

/// Two words.
#[derive(Clone, Copy, Debug)]
pub struct TwoWords<'a> {
    /// The first word.
    pub first: &'a str,
    /// The second word.
    pub second: &'a str,
}

/// Three words.
#[derive(Clone, Copy, Debug)]
pub struct ThreeWords<'a> {
    /// The first word.
    pub first: &'a str,
    /// The second word.
    pub second: &'a str,
    /// The third word.
    pub third: &'a str,
}

/// One word, and the flag `--csv` before or after it, at most once. Words after the first `--` are taken as they are;
/// before it, no other word of two or more bytes begins with `-`.
pub fn sheet_words<'a>(alloc: Global, words: &'a [String]) -> Result<SheetWords<'a>, WordsFault>
    ensures good { IfOk result (λ read. (are_good true 1 (texts words.now) ≡ true)
        × (positional_words true (texts words.now) ≡ read.sheet.now ∷ [])
        × (read.csv ≡ (flag_count true (texts words.now) == 1))) }
    ensures bad { IfErr result (λ fault. fault ≡ WordsFault.Usage → are_good true 1 (texts words.now) ≡ false) }
{
    let matches = match sheet_command(alloc)?.try_get_matches_from(words) {
        Ok(matches) => matches,
        Err(error) => return Err(fault_from(&error)),
    };
    match matches.get_str("sheet") {
        Some(sheet) => Ok(SheetWords {
            sheet,
            csv: matches.get_flag("csv"),
        }),
        None => unreachable!(),
    }
}

/// One word, and no flag.
pub fn one_word<'a>(alloc: Global, words: &'a [String]) -> Result<&'a str, WordsFault>
    ensures good { IfOk result (λ name. (are_good false 1 (texts words.now) ≡ true)
        × (positional_words false (texts words.now) ≡ name.now ∷ [])) }
    ensures bad { IfErr result (λ fault. fault ≡ WordsFault.Usage → are_good false 1 (texts words.now) ≡ false) }
{
    let matches = match single_command(alloc)?.try_get_matches_from(words) {
        Ok(matches) => matches,
        Err(error) => return Err(fault_from(&error)),
    };
    match matches.get_str("name") {
        Some(name) => Ok(name),
        None => unreachable!(),
    }
}

/// Two words, and no flag.
pub fn two_words<'a>(alloc: Global, words: &'a [String]) -> Result<TwoWords<'a>, WordsFault>
    ensures good { IfOk result (λ read. (are_good false 2 (texts words.now) ≡ true)
        × (positional_words false (texts words.now) ≡ read.first.now ∷ read.second.now ∷ [])) }
    ensures bad { IfErr result (λ fault. fault ≡ WordsFault.Usage → are_good false 2 (texts words.now) ≡ false) }
{
    let matches = match pair_command(alloc)?.try_get_matches_from(words) {
        Ok(matches) => matches,
        Err(error) => return Err(fault_from(&error)),
    };
    let Some(first) = matches.get_str("first") else {
        unreachable!()
    };
    let Some(second) = matches.get_str("second") else {
        unreachable!()
    };
    Ok(TwoWords { first, second })
}

/// Three words, and no flag.
pub fn three_words<'a>(alloc: Global, words: &'a [String]) -> Result<ThreeWords<'a>, WordsFault>
    ensures good { IfOk result (λ read. (are_good false 3 (texts words.now) ≡ true)
        × (positional_words false (texts words.now) ≡ read.first.now ∷ read.second.now ∷ read.third.now ∷ [])) }
    ensures bad { IfErr result (λ fault. fault ≡ WordsFault.Usage → are_good false 3 (texts words.now) ≡ false) }
{
    let matches = match triple_command(alloc)?.try_get_matches_from(words) {
        Ok(matches) => matches,
        Err(error) => return Err(fault_from(&error)),
    };
    let Some(first) = matches.get_str("first") else {
        unreachable!()
    };
    let Some(second) = matches.get_str("second") else {
        unreachable!()
    };
    let Some(third) = matches.get_str("third") else {
        unreachable!()
    };
    Ok(ThreeWords {
        first,
        second,
        third,
    })
}
