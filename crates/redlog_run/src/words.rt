ghost use Rattle.std.specs.Prelude.{◌≡◌, ℕ, true, false, IsTrue, ◌↔◌, ◌<◌, ◌≤◌, List, [], ◌++◌, length, drop, MatchOption};
ghost use Rattle.std.specs.declared.alloc.Global.{Global};
ghost use Rattle.std.specs.declared.string.String.{String};
ghost use Rattle.program_meaning.specs.declared.options.Choice.{Choice};
ghost use Rattle.program_meaning.specs.declared.options.Language.TheVariants as Language;
ghost use Rattle.program_meaning.specs.declared.options.Options.{Options};
ghost use Rattle.program_meaning.specs.CommandWords.{no_options, Gives, with_smt, Begins, BeginsFlag, SpellsAfter, Spells};

use crate::options::{CHOICES, SMT_FLAG};
use crate::value::value_of;
use program_meaning::{Choice, Language, Options};

/// Whether the words of a command line are of the form `[--nodes n] [--workers n] [--generate n | --smt]`: each option at
/// most once, in any order, its value in the next word or after `=`. It takes no memory.
pub fn are_valid(words: &[String]) -> bool
    ensures { IsTrue result ↔ ((options : Options) × Spells words.now options) }
{
    spelled(words).is_some()
}

/// The options that the words give, where they are of the form.
fn spelled(words: &[String]) -> Option<Options>
    ensures { MatchOption result (¬ ((options : Options) × Spells words.now options)) (λ options. Spells words.now options) }
{
    let options = all_given(words)?;
    match options.language {
        Language::SmtLib if options.generate.is_some() => None,
        _ => Some(options),
    }
}

/// The options that the words give, each at most once.
fn all_given(words: &[String]) -> Option<Options>
    ensures { MatchOption result ((options : Options) → ¬ SpellsAfter no_options words.now options) (λ options. SpellsAfter no_options words.now options) }
{
    let mut options = Options {
        nodes: None,
        workers: None,
        generate: None,
        language: Language::Redlog,
    };
    let mut from = 0;
    'words: while from < words.len() {
        let next = with_first(options, &words[from..])?;
        options = next.options;
        from += next.words;
    }
    Some(options)
}

/// Some options and the one that comes next, and in how many words this stands.
#[derive(Clone, Copy)]
struct Next {
    options: Options,
    words: usize,
}

/// These options and the one, or the flag, that the words begin with, where it was not given yet.
fn with_first(before: Options, words: &[String]) -> Option<Next>
    requires { 0 < length words.now }
    ensures { MatchOption result
        ((all : Options) → ¬ SpellsAfter before words.now all)
        (λ next. (0 < next.words) × (next.words ≤ length words.now) × ((all : Options) → SpellsAfter before words.now all ↔ SpellsAfter next.options (drop next.words words.now) all)) }
{
    if begins_with_flag(words) {
        let options = with_flag(before)?;
        return Some(Next { options, words: 1 });
    }
    let first = first_option(words)?;
    if before.has(first.choice) {
        return None;
    }
    Some(Next {
        options: before.with(first.choice, first.value),
        words: first.words,
    })
}

/// These options and the flag, where it was not given yet.
fn with_flag(before: Options) -> Option<Options>
    ensures { MatchOption result (before.language ≡ Language.SmtLib) (λ options. (before.language ≡ Language.Redlog) × (options ≡ with_smt before)) }
{
    match before.language {
        Language::Redlog => Some(Options {
            language: Language::SmtLib,
            ..before
        }),
        Language::SmtLib => None,
    }
}

/// Whether the words begin with the flag.
fn begins_with_flag(words: &[String]) -> bool
    ensures flag { result ≡ true → BeginsFlag words.now (drop 1 words.now) }
    ensures none { result ≡ false → (rest : List (String Global)) → ¬ BeginsFlag words.now rest }
{
    match words.split_first() {
        Some((word, _)) => word.as_str() == SMT_FLAG,
        None => false,
    }
}

/// The first option of some words: its value, and in how many words it stands.
#[derive(Clone, Copy)]
struct First {
    choice: Choice,
    value: u32,
    words: usize,
}

/// The option that the words begin with.
fn first_option(words: &[String]) -> Option<First>
    ensures { MatchOption result
        ((choice : Choice) (n : ℕ) (rest : List (String Global)) → ¬ Begins choice words.now n rest)
        (λ first. (0 < first.words) × (first.words ≤ length words.now) × Begins first.choice words.now first.value (drop first.words words.now)) }
{
    'choices: for choice in CHOICES {
        if let Some(first) = option_at(words, choice) {
            return Some(first);
        }
    }
    None
}

/// The option that the words begin with, where it is this one.
fn option_at(words: &[String], choice: Choice) -> Option<First>
    ensures { MatchOption result
        ((n : ℕ) (rest : List (String Global)) → ¬ Begins choice words.now n rest)
        (λ first. (0 < first.words) × (first.words ≤ length words.now) × Begins first.choice words.now first.value (drop first.words words.now)) }
{
    let (word, others) = words.split_first()?;
    let tail = tail_after(word.as_bytes(), choice.name().as_bytes())?;
    let given = value_at(tail, others, choice.greatest())?;
    Some(First {
        choice,
        value: given.value,
        words: 1 + given.words,
    })
}

/// What follows the name in a word that begins with it.
fn tail_after<'a>(word: &'a [u8], name: &[u8]) -> Option<&'a [u8]>
    ensures { MatchOption result
        ((tail : List ℕ) → ¬ (word.entry.now ≡ name.now ++ tail))
        (λ tail. word.entry.now ≡ name.now ++ tail.now) }
{
    word.strip_prefix(name)
}

/// A value, and how many words after the option's it takes.
#[derive(Clone, Copy)]
struct Given {
    value: u32,
    words: usize,
}

/// The value of an option whose word has this tail and is followed by these words.
fn value_at(tail: &[u8], others: &[String], greatest: u32) -> Option<Given>
    ensures { MatchOption result
        ((n : ℕ) (rest : List (String Global)) → ¬ Gives greatest tail.now others.now n rest)
        (λ given. (given.words ≤ length others.now) × Gives greatest tail.now others.now given.value (drop given.words others.now)) }
{
    let Some((sign, text)) = tail.split_first() else {
        return value_in_next(others, greatest);
    };
    if *sign != b'=' {
        return None;
    }
    let value = value_of(text, greatest)?;
    Some(Given { value, words: 0 })
}

/// The value of an option that stands in the next word.
fn value_in_next(others: &[String], greatest: u32) -> Option<Given>
    ensures { MatchOption result
        ((n : ℕ) (rest : List (String Global)) → ¬ Gives greatest [] others.now n rest)
        (λ given. (given.words ≤ length others.now) × Gives greatest [] others.now given.value (drop given.words others.now)) }
{
    let (text, _) = others.split_first()?;
    let value = value_of(text.as_bytes(), greatest)?;
    Some(Given { value, words: 1 })
}
