//! The words after the name of a command, divided into positionals and settings, and taken out one by one.
ghost use Rattle.std.specs.Prelude.{◌≡◌, ◌∷◌, true, None, IfOk, IfSome, IfNone, MatchBool, nat_lt};
ghost use Rattle.std.specs.List.{list_all};
ghost use Rattle.std.specs.Str.{bytes_eq};
ghost use Rattle.text_lines.specs.Lines.{is_empty};
ghost use Rattle.command_words.specs.Parts.{all_parts, but_dash, is_dash, is_option, opens_option, setting_value, without};
ghost use Rattle.command_words.specs.PartsRead.{IsFirstOf, HasNone};

use std::alloc::Global;
use std::collections::VecDeque;
use std::marker::Model;
use tea_base::{Text, WantOfMemory};

/// An option and its value.
#[derive(Drop)]
pub struct Setting {
    pub option: Text,
    pub value: Text,
}

/// The words after the name of a command: its positionals in order, and its settings.
#[derive(Drop)]
pub struct Parts {
    positionals: VecDeque<Text>,
    settings: Vec<Setting>,
}

impl Model for Parts {
    ghost use Rattle.command_words.specs.Parts.{Parts as PlainParts};

    ghost Value = { PlainParts };

    ghost view = { λ parts. record { positionals = parts.positionals.items; settings = parts.settings.items } };
}

impl Parts {
    ghost use Rattle.std.specs.Prelude.{[], ◌++◌, OnOk};
    ghost use Rattle.command_words.specs.Parts.{are_all_taken, behind_first, first_positional, has_dash, no_parts, value_of, without_option};

    /// No words. Takes no memory.
    fn new(alloc: Global) -> Parts
        ensures { result ≡ no_parts }
    {
        Parts {
            positionals: VecDeque::new(alloc),
            settings: Vec::new(alloc),
        }
    }

    /// Adds a positional at the end.
    fn add_positional(&mut self, word: Text) -> Result<(), WantOfMemory>
        ensures { OnOk result (self.new ≡ record (self.old) { positionals = self.old.positionals ++ word ∷ [] }) }
    {
        self.positionals.push_back(word)?;
        Ok(())
    }

    /// Adds a setting at the end.
    fn add_setting(&mut self, setting: Setting) -> Result<(), WantOfMemory>
        ensures { OnOk result (self.new ≡ record (self.old) { settings = self.old.settings ++ setting ∷ [] }) }
    {
        self.settings.push(setting)?;
        Ok(())
    }

    /// Takes out the first positional. A `-` alone is none.
    pub fn positional(&mut self) -> Option<Text>
        ensures value { result ≡ first_positional self.old }
        ensures rest { self.new ≡ behind_first self.old }
    {
        but_dash(self.positionals.pop_front()?)
    }

    /// Whether the first positional is `-` alone.
    pub fn has_dash(&self) -> bool
        ensures { result ≡ has_dash self.now }
    {
        match self.positionals.front() {
            Some(word) => is_dash(word),
            None => false,
        }
    }

    /// Takes out the first positional, whatever it is.
    pub fn pass(&mut self)
        ensures { self.new ≡ behind_first self.old }
    {
        let _ = self.positionals.pop_front();
    }

    /// Takes out the first setting of an option.
    pub fn option(&mut self, option: &str) -> Option<Text>
        requires { list_all (λ byte. nat_lt byte 128) option.now ≡ true }
        ensures value { result ≡ value_of option.now self.old }
        ensures rest { self.new ≡ without_option option.now self.old }
    {
        take_setting(&mut self.settings, option)
    }

    /// Whether all were taken out.
    pub fn are_all_taken(&self) -> bool
        ensures { result ≡ are_all_taken self.now }
    {
        self.positionals.is_empty() && self.settings.is_empty()
    }
}

/// What was read so far, and an option that waits for its value.
#[derive(Drop)]
struct Reader {
    parts: Parts,
    awaiting: Option<Text>,
}

impl Reader {
    ghost use Rattle.std.specs.Prelude.{List};
    ghost use Rattle.text_lines.specs.Lines.{LineWord};
    ghost use Rattle.command_words.specs.PartsRead.{read_on};

    /// Reads one word more, or says that it breaks the rules.
    #[tactic(auto, using(crate::proofs::PartsLaws::reads_setting, crate::proofs::PartsLaws::reads_positional))]
    fn take(&mut self, word: &Text) -> Result<bool, WantOfMemory>
        ensures { IfOk result (λ follows. MatchBool follows
            ((rest : List LineWord) → read_on self.new.parts self.new.awaiting rest
            ≡ read_on self.old.parts self.old.awaiting (word.now ∷ rest))
            ((rest : List LineWord) → read_on self.old.parts self.old.awaiting (word.now ∷ rest) ≡ None)) }
    {
        if is_empty(word) {
            return Ok(false);
        }
        let begins_so = is_option(word);
        let opens_option = opens_option(word);
        let word = word.clone()?;
        match self.awaiting.take() {
            Some(_) if begins_so => return Ok(false),
            Some(option) => {
                let setting = Setting {
                    option,
                    value: word,
                };
                self.parts.add_setting(setting)?;
            }
            None if opens_option => self.awaiting = Some(word),
            None => self.parts.add_positional(word)?,
        }
        Ok(true)
    }
}

/// Whether a word has no character.
fn is_empty(word: &Text) -> bool
    ensures { result ≡ is_empty word.now }
{
    word.bytes().is_empty()
}

/// Whether a word begins with `-`.
fn is_option(word: &Text) -> bool
    ensures { result ≡ is_option word.now }
{
    begins_with_dash(word.bytes())
}

fn begins_with_dash(bytes: &[u8]) -> bool
    ensures { result ≡ is_option bytes.now }
{
    match bytes {
        [] => false,
        [first, ..] => *first == b'-',
    }
}

/// Whether a word is `-` alone.
fn is_dash(word: &Text) -> bool
    ensures { result ≡ is_dash word.now }
{
    is_word(word, "-")
}

/// Whether a word is an option: it begins with `-`, and is not `-` alone.
fn opens_option(word: &Text) -> bool
    ensures { result ≡ opens_option word.now }
{
    !is_dash(word) && is_option(word)
}

/// The word, unless it is `-` alone.
fn but_dash(word: Text) -> Option<Text>
    ensures { result ≡ but_dash word }
{
    if is_dash(&word) { None } else { Some(word) }
}

/// Whether a word is this one of ASCII.
pub fn is_word(word: &Text, name: &str) -> bool
    requires { list_all (λ byte. nat_lt byte 128) name.now ≡ true }
    ensures { result ≡ bytes_eq word.now name.now }
{
    word.as_str() == name
}

/// The parts of the words after the name of a command, where they follow the rules.
pub fn read_parts(alloc: Global, words: &[Text]) -> Result<Option<Parts>, WantOfMemory>
    ensures { IfOk result (λ read. read ≡ all_parts words.now) }
{
    let mut reader = Reader {
        parts: Parts::new(alloc),
        awaiting: None,
    };
    for word in words {
        let follows = reader.take(word)?;
        if !follows {
            return Ok(None);
        }
    }
    let Reader { parts, awaiting } = reader;
    match awaiting {
        Some(_) => Ok(None),
        None => Ok(Some(parts)),
    }
}

/// Where the first setting of an option stands.
fn place_of(settings: &[Setting], option: &str) -> Option<usize>
    requires { list_all (λ byte. nat_lt byte 128) option.now ≡ true }
    ensures found { IfSome result (IsFirstOf option.now settings.now) }
    ensures none { IfNone result (HasNone option.now settings.now) }
{
    for (place, setting) in settings.iter().enumerate() {
        if is_word(&setting.option, option) {
            return Some(place);
        }
    }
    None
}

/// Takes out the first setting of an option.
fn take_setting(settings: &mut Vec<Setting>, option: &str) -> Option<Text>
    requires { list_all (λ byte. nat_lt byte 128) option.now ≡ true }
    ensures value { result ≡ setting_value option.now settings.old.items }
    ensures rest { settings.new.items ≡ without option.now settings.old.items }
{
    let place = place_of(settings, option)?;
    let Setting { option: _, value } = settings.remove(place);
    Some(value)
}
