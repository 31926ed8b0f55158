//! Hints on the words of the command line.
use crate::forms::{COMMANDS, CommandForm, command_kind, is_of_kind, positionals, rule};
use crate::names::are_near;
use crate::place::{Span, push_marked};
use std::alloc::Global;
use tea_base::{Text, WantOfMemory};
use text_lines::split_words;

/// What is wrong with which of the words, from 1.
#[derive(Drop)]
struct WordFault {
    word: usize,
    message: String,
}

/// The forms of all commands, a line each.
pub fn forms(alloc: Global) -> Result<String, WantOfMemory> {
    let mut out = String::from_str(alloc, "The commands of croquet, each with what it does:\n")?;
    for command in &COMMANDS {
        let CommandForm { form, does } = command;
        write!(out, "  {form}: {does}\n")?;
    }
    Ok(out)
}

/// Whether words ask for help.
fn asks_for_help(words: &[Text]) -> bool {
    match words {
        [] => true,
        [word] => matches!(word.as_str(), "help" | "-h" | "--help"),
        _ => false,
    }
}

/// The form of the command of a name.
fn form_of(name: &str) -> Option<&'static str> {
    for command in &COMMANDS {
        if command.form == name {
            return Some(command.form);
        }
        if let Some(rest) = command.form.strip_prefix(name) {
            if rest.starts_with(" ") && !name.is_empty() {
                return Some(command.form);
            }
        }
    }
    None
}

fn fault(word: usize, message: String) -> Result<Option<WordFault>, WantOfMemory> {
    Ok(Some(WordFault { word, message }))
}

/// What an option in a form is written with: without its brackets.
fn bare(word: &str) -> &str {
    let front = word.strip_prefix("[").unwrap_or(word);
    front.strip_suffix("]").unwrap_or(front)
}

/// The word of a form that names the value of an option.
fn value_of(form_words: &[&'static str], option: &str) -> Option<&'static str> {
    let mut is_next = false;
    for word in form_words {
        if is_next {
            return Some(bare(word));
        }
        is_next = bare(word) == option;
    }
    None
}

/// What is wrong with a word of a kind that has this name in the form.
fn kind_fault(
    alloc: Global,
    place: usize,
    name: &str,
    word: &Text,
) -> Result<Option<WordFault>, WantOfMemory> {
    let kind = command_kind(name);
    if is_of_kind(alloc, kind, word.bytes())? {
        return Ok(None);
    }
    let rule = rule(alloc, kind)?;
    fault(place, format!(in alloc; "{name} {rule}")?)
}

/// What is wrong with an option, where it is one of the words.
fn option_fault(
    alloc: Global,
    form_words: &[&'static str],
    words: &[Text],
    place: usize,
    option: &Text,
) -> Result<Option<WordFault>, WantOfMemory> {
    let word = option.as_str();
    let command = form_words.first().copied().unwrap_or_default();
    if let Some((front, value)) = word.split_once("=") {
        if value_of(form_words, front).is_some() {
            return fault(
                place,
                format!(in alloc; "the value of an option is the next word: {front} {value}")?,
            );
        }
    }
    let Some(name) = value_of(form_words, word) else {
        return fault(
            place,
            format!(in alloc; "`{command}` has no option {word}")?,
        );
    };
    if is_among(words, place.saturating_sub(1), option) {
        return fault(place, format!(in alloc; "{word} is given twice")?);
    }
    match words.get(place) {
        Some(value) if !value.as_str().starts_with("-") && !value.bytes().is_empty() => {
            kind_fault(alloc, place.saturating_add(1), name, value)
        }
        _ => fault(
            place,
            format!(in alloc; "{word} has no value: {name} follows it")?,
        ),
    }
}

/// Whether a word is among the first so many.
fn is_among(words: &[Text], count: usize, word: &Text) -> bool {
    for (place, other) in words.iter().enumerate() {
        if place < count && other.is_text(word) {
            return true;
        }
    }
    false
}

/// Whether a word is an option: it begins with `-`, and is not `-` alone.
fn is_option(word: &str) -> bool {
    word.starts_with("-") && word != "-"
}

/// Whether `-` may be in the place of this word of a form.
fn may_be_dash(names: &[&'static str], name: &str) -> bool {
    name == "SCRIPT" && names.first().copied() == Some("join")
}

/// What is wrong with a word that is no option, the one of this number.
fn positional_fault(
    alloc: Global,
    names: &[&'static str],
    number: usize,
    place: usize,
    word: &Text,
) -> Result<Option<WordFault>, WantOfMemory> {
    match names.get(number) {
        Some(name) if word.as_str() == "-" && !may_be_dash(names, name) => fault(
            place,
            format!(in alloc;
                "{name} is not `-`, which stands in the place of SCRIPT of `join` alone"
            )?,
        ),
        Some(name) => kind_fault(alloc, place, name, word),
        None => fault(place, String::from_str(alloc, "one word too many")?),
    }
}

/// What is missing after all words.
fn missing(
    alloc: Global,
    form_words: &[&'static str],
    words: &[Text],
    next: Option<&&'static str>,
) -> Result<Option<WordFault>, WantOfMemory> {
    let place = words.len().saturating_add(1);
    if let Some(name) = next {
        return fault(place, format!(in alloc; "{name} is missing")?);
    }
    for option in form_words {
        if option.starts_with("-") && !has_word(words, option) {
            let name = value_of(form_words, option).unwrap_or_default();
            return fault(place, format!(in alloc; "{option} {name} is missing")?);
        }
    }
    let is_reflect = form_words.first().copied() == Some("reflect");
    if is_reflect && !has_word(words, "--log") && !has_word(words, "--journal") {
        return fault(
            place,
            String::from_str(alloc, "--log FILE or --journal JOURNAL is missing")?,
        );
    }
    two_ends(alloc, words)
}

/// What is wrong with a reflector or a host whose links are counted, where it is to be a service too.
fn two_ends(alloc: Global, words: &[Text]) -> Result<Option<WordFault>, WantOfMemory> {
    if !has_word(words, "--connections") {
        return Ok(None);
    }
    for (index, word) in words.iter().enumerate() {
        let option = word.as_str();
        if matches!(option, "--links" | "--until") {
            return fault(
                index.saturating_add(1),
                format!(in alloc; "{option} is not given beside --connections")?,
            );
        }
    }
    Ok(None)
}

fn has_word(words: &[Text], wanted: &str) -> bool {
    for word in words {
        if word.as_str() == wanted {
            return true;
        }
    }
    false
}

/// The first thing that is wrong with words of a command with this form.
fn first_fault(
    alloc: Global,
    form: &'static str,
    words: &[Text],
) -> Result<Option<WordFault>, WantOfMemory> {
    let form_words = split_words(alloc, form)?;
    let names = positionals(alloc, form)?;
    let mut number: usize = 1;
    let mut is_value = false;
    for (index, word) in words.iter().enumerate() {
        let place = index.saturating_add(1);
        if is_value || index == 0 {
            is_value = false;
            continue;
        }
        let found = if word.bytes().is_empty() {
            fault(
                place,
                String::from_str(alloc, "the word is empty, or is not UTF-8")?,
            )?
        } else if is_option(word.as_str()) {
            is_value = true;
            option_fault(alloc, &form_words, words, place, word)?
        } else {
            let found = positional_fault(alloc, &names, number, place, word)?;
            number = number.saturating_add(1);
            found
        };
        if found.is_some() {
            return Ok(found);
        }
    }
    missing(alloc, &form_words, words, names.get(number))
}

/// The command line, and which part of it a word is. A word beyond the last one is at its end.
fn command_line(
    alloc: Global,
    words: &[Text],
    number: usize,
) -> Result<(String, Span), WantOfMemory> {
    let mut line = String::from_str(alloc, "croquet")?;
    let mut span = None;
    for (index, word) in words.iter().enumerate() {
        line.push_str(" ")?;
        if index.saturating_add(1) == number {
            span = Some(Span::new(line.len(), word.bytes().len()));
        }
        line.push_str(word.as_str())?;
    }
    let end = Span::new(line.len().saturating_add(1), 1);
    Ok((line, span.unwrap_or(end)))
}

/// A hint on one of the words.
pub fn word_hint(
    alloc: Global,
    words: &[Text],
    number: usize,
    message: &str,
) -> Result<String, WantOfMemory> {
    let mut out = format!(in alloc; "word {number}: {message}\n")?;
    let (mut line, span) = command_line(alloc, words, number)?;
    line.push_str("  ")?;
    push_marked(&mut out, line.as_bytes(), span, "  ")?;
    if let Some(name) = words.first() {
        if let Some(form) = form_of(name.as_str()) {
            write!(out, "  the form: croquet {form}\n")?;
        }
    }
    Ok(out)
}

/// A hint on words that break their rules.
pub fn usage_hint(alloc: Global, words: &[Text]) -> Result<String, WantOfMemory> {
    if asks_for_help(words) {
        return forms(alloc);
    }
    let Some((name, _rest)) = words.split_first() else {
        return forms(alloc);
    };
    let Some(form) = form_of(name.as_str()) else {
        return unknown_command(alloc, words, name);
    };
    match first_fault(alloc, form, words)? {
        Some(WordFault { word, message }) => word_hint(alloc, words, word, message.as_str()),
        None => word_hint(alloc, words, 1, "the words break the rules of the form"),
    }
}

/// The command whose name is near to this one.
fn near_command(name: &str) -> &'static str {
    for command in &COMMANDS {
        let (other, _rest) = command.form.split_once(" ").unwrap_or((command.form, ""));
        if are_near(name, other) {
            return other;
        }
    }
    ""
}

fn unknown_command(alloc: Global, words: &[Text], name: &Text) -> Result<String, WantOfMemory> {
    let (word, near) = (name.as_str(), near_command(name.as_str()));
    let message = if word.is_empty() {
        String::from_str(alloc, "the word is empty, or is not UTF-8")?
    } else if near.is_empty() {
        format!(in alloc; "there is no command \"{word}\"")?
    } else {
        format!(in alloc; "there is no command \"{word}\": is it {near}?")?
    };
    let mut out = word_hint(alloc, words, 1, message.as_str())?;
    out.push_str(forms(alloc)?.as_str())?;
    Ok(out)
}

/// Where among the words, from 1, the positional of this number is, from 1; 0 if there are fewer.
pub fn place_of_positional(words: &[Text], number: usize) -> usize {
    let mut count: usize = 0;
    let mut is_value = true;
    for (index, word) in words.iter().enumerate() {
        if is_value {
            is_value = false;
        } else if is_option(word.as_str()) {
            is_value = true;
        } else {
            count = count.saturating_add(1);
            if count == number {
                return index.saturating_add(1);
            }
        }
    }
    0
}
