//! The operands of a command, and the option and the word `--warm` that stand anywhere among them.
ghost use Rattle.std.specs.Prelude.{◌≡◌, ◌<◌, [], ◌∷◌, slice_index_or, true, false, nat_eq, length, drop, map, string_bytes, None, Some, MatchOption, option_map};
ghost use Rattle.std.specs.List.{starts_with};
ghost use Rattle.dcx_words.specs.Commands.{unlimited as unlimited_of, limited as limited_of, limited_by_next as limited_by_next_of, put_before, option_front};
ghost use Rattle.dcx_words.specs.Commands.{without_option as without_option_of, is_file as is_file_of, file_of, files_of, warm_files_of, three_files_of, size_of};
ghost use Rattle.dcx_words.specs.Around.{words_around, operands_around, Gives};

use crate::number::number_within;

/// The most pivots where the option isn't given.
const USUAL_LIMIT: u64 = 200_000;

/// The words around the option, and the limit that it sets.
#[derive(Clone, Copy)]
pub struct Around<'a> {
    pub front: &'a [String],
    pub back: &'a [String],
    pub limit: u64,
}

/// Words that have no option.
pub fn unlimited(words: &[String]) -> Around<'_>
    ensures { operands_around result ≡ unlimited_of (map string_bytes words.now) }
{
    Around {
        front: words,
        back: &[],
        limit: USUAL_LIMIT,
    }
}

/// The words around the option, whose number this text is to spell.
fn limited<'a>(front: &'a [String], text: &str, back: &'a [String]) -> Option<Around<'a>>
    ensures { Gives (option_map (put_before (map string_bytes front.now)) (limited_of text.now (map string_bytes back.now))) result }
{
    let limit = number_within(10, 0, 1_000_000_000, text)?;
    Some(Around { front, back, limit })
}

/// The same, where the number is the next word.
fn limited_by_next<'a>(front: &'a [String], words: &'a [String]) -> Option<Around<'a>>
    ensures { Gives (option_map (put_before (map string_bytes front.now)) (limited_by_next_of (map string_bytes words.now))) result }
{
    match words {
        [] => None,
        [text, back @ ..] => limited(front, text.as_str(), back),
    }
}

/// What stands behind the option's front in this word.
fn after_front(word: &str) -> Option<&str>
    ensures { MatchOption result (starts_with nat_eq word.now option_front ≡ false) (λ x. (starts_with nat_eq word.now option_front ≡ true) × (x.now ≡ drop (length option_front) word.now)) }
{
    word.strip_prefix("--max-pivots=")
}

/// The words around the first option.
pub fn without_option(words: &[String]) -> Option<Around<'_>>
    ensures { Gives (without_option_of (map string_bytes words.now)) result }
{
    for (index, word) in words.iter().enumerate() {
        let front = &words[..index];
        let behind = &words[index + 1..];
        let word = word.as_str();
        if word == "--max-pivots" {
            return limited_by_next(front, behind);
        }
        if let Some(text) = after_front(word) {
            return limited(front, text, behind);
        }
    }
    Some(unlimited(words))
}

/// Whether the word is a file operand.
fn is_file(word: &str) -> bool
    ensures { result ≡ is_file_of word.now }
{
    match word.as_bytes() {
        [] => false,
        [first, ..] => *first != b'-',
    }
}

/// The word, where it is a file operand.
fn file(word: &str) -> Option<&str>
    ensures { MatchOption result (file_of (word.now ∷ []) ≡ None) (λ x. file_of (word.now ∷ []) ≡ Some x.now) }
{
    if is_file(word) { Some(word) } else { None }
}

/// The two words, where they are file operands.
fn two_files<'a>(first: &'a str, second: &'a str) -> Option<(&'a str, &'a str)>
    ensures { MatchOption result (files_of (first.now ∷ second.now ∷ []) ≡ None) (λ x. files_of (first.now ∷ second.now ∷ []) ≡ Some (x.0.now, x.1.now)) }
{
    let first = file(first)?;
    let second = file(second)?;
    Some((first, second))
}

/// The two words beside the first `--warm` of the three, where they are file operands.
fn beside_warm<'a>(
    first: &'a str,
    second: &'a str,
    third: &'a str,
) -> Option<(&'a str, &'a str, bool)>
    ensures { MatchOption result (warm_files_of (first.now ∷ second.now ∷ third.now ∷ []) ≡ None) (λ x. warm_files_of (first.now ∷ second.now ∷ third.now ∷ []) ≡ Some (x.0.now, x.1.now, x.2)) }
{
    let (script, settings) = if first == "--warm" {
        two_files(second, third)?
    } else if second == "--warm" {
        two_files(first, third)?
    } else if third == "--warm" {
        two_files(first, second)?
    } else {
        return None;
    };
    Some((script, settings, true))
}

impl<'a> Around<'a> {
    /// How many operands there are.
    fn count(self) -> usize
        ensures { result ≡ length (words_around self.entry) }
    {
        self.front.len() + self.back.len()
    }

    /// The operand at this place.
    fn at(self, index: usize) -> &'a str
        requires { index < length (words_around self) }
        ensures { result.now ≡ slice_index_or (words_around self.entry) index [] }
    {
        if index < self.front.len() {
            self.front[index].as_str()
        } else {
            self.back[index - self.front.len()].as_str()
        }
    }

    /// The one operand that is a file.
    pub fn file(self) -> Option<&'a str>
        ensures { MatchOption result (file_of (words_around self.entry) ≡ None) (λ x. file_of (words_around self.entry) ≡ Some x.now) }
    {
        if self.count() == 1 {
            file(self.at(0))
        } else {
            None
        }
    }

    /// The two operands that are files.
    pub fn files(self) -> Option<(&'a str, &'a str)>
        ensures { MatchOption result (files_of (words_around self.entry) ≡ None) (λ x. files_of (words_around self.entry) ≡ Some (x.0.now, x.1.now)) }
    {
        if self.count() == 2 {
            two_files(self.at(0), self.at(1))
        } else {
            None
        }
    }

    /// The two operands that are files, beside `--warm`, and whether that is there.
    pub fn warm_files(self) -> Option<(&'a str, &'a str, bool)>
        ensures { MatchOption result (warm_files_of (words_around self.entry) ≡ None) (λ x. warm_files_of (words_around self.entry) ≡ Some (x.0.now, x.1.now, x.2)) }
    {
        if self.count() == 3 {
            return beside_warm(self.at(0), self.at(1), self.at(2));
        }
        let (script, settings) = self.files()?;
        Some((script, settings, false))
    }

    /// The three operands that are files.
    pub fn three_files(self) -> Option<(&'a str, &'a str, &'a str)>
        ensures { MatchOption result (three_files_of (words_around self.entry) ≡ None) (λ x. three_files_of (words_around self.entry) ≡ Some (x.0.now, x.1.now, x.2.now)) }
    {
        if self.count() == 3 {
            let script = file(self.at(0))?;
            let settings = file(self.at(1))?;
            let certificate = file(self.at(2))?;
            Some((script, settings, certificate))
        } else {
            None
        }
    }

    /// The one operand that is a size.
    pub fn size(self) -> Option<u32>
        ensures { result ≡ size_of (words_around self.entry) }
    {
        if self.count() == 1 {
            let size = number_within(4, 1, 1000, self.at(0))?;
            Some(size as u32)
        } else {
            None
        }
    }
}
