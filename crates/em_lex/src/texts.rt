ghost use Rattle.std.specs.Prelude.{◌≡◌, true, IfSome, IfOk, encode_utf8_all};
ghost use Rattle.em_lex.specs.Characters.{name_of};

use crate::characters::{text_of, vec_of};
use em_base::{Name, NoMemory, Text};
use std::alloc::Global;
use std::marker::Model;

/// How many places there are for words of one ASCII character, and for others.
const SINGLES: usize = 128;

const OTHERS: usize = 1024;

/// The greatest number of characters of a word that is kept.
const LONGEST: usize = 32;

/// A word with its text, and its name where that was asked for. Contracts see the word's characters.
#[derive(Debug, Drop)]
struct Known {
    word: Vec<char>,
    text: Text,
    name: Option<Name>,
}

impl Model for Known {
    ghost use Rattle.std.specs.Prelude.{◌≡◌, ℕ, List, IfSome, encode_utf8_all};
    ghost use Rattle.em_lex.specs.Characters.{name_of};

    ghost Value = { List ℕ };

    ghost view = { λ k. k.word.items };

    ghost invariant = { λ k. (k.text ≡ encode_utf8_all k.word.items) × IfSome k.name (λ n. n ≡ name_of k.word.items) };
}

impl Known {
    fn text(&self) -> Result<Text, NoMemory>
        ensures { IfOk result (λ t. t ≡ encode_utf8_all self.now) }
    {
        self.text.share()
    }

    fn name(&self) -> Result<Option<Name>, NoMemory>
        ensures { IfOk result (λ name. IfSome name (λ n. n ≡ name_of self.now)) }
    {
        match &self.name {
            Some(name) => Ok(Some(name.share()?)),
            None => Ok(None),
        }
    }
}

/// The name of a word.
fn name_of(alloc: Global, word: &[char]) -> Result<Name, NoMemory>
    ensures { IfOk result (λ n. n ≡ name_of word.now) }
{
    let text = text_of(alloc, word)?;
    Name::normal(alloc, text.as_str())
}

/// Where a word is kept: words of one ASCII character each at a place of its own.
fn place_of(word: &[char]) -> usize {
    if let [c] = word {
        if c.is_ascii() {
            return *c as usize;
        }
    }
    let mut code = 0u32;
    for c in word {
        code = (code ^ *c as u32).wrapping_mul(0x0100_0193);
    }
    SINGLES + (code ^ (code >> 15)) as usize % OTHERS
}

/// Whether two words are one. Words are short, so that this is faster than `==`.
fn is_word(word: &[char], other: &[char]) -> bool
    ensures { result ≡ true → word.now ≡ other.now }
{
    if word.len() != other.len() {
        return false;
    }
    'chars: for (at, c) in word.iter().enumerate() {
        if *c != other[at] {
            return false;
        }
    }
    true
}

/// The words that were met last, whose texts and names are shared.
#[derive(Debug, Drop)]
pub struct Texts {
    places: Vec<Option<Known>>,
}

impl Texts {
    pub fn new(alloc: Global) -> Result<Texts, NoMemory> {
        let mut places = Vec::with_capacity(alloc, SINGLES + OTHERS)?;
        for _ in 0..SINGLES + OTHERS {
            places.push(None)?;
        }
        Ok(Texts { places })
    }

    fn find(&self, word: &[char]) -> Option<&Known>
        ensures { IfSome result (λ k. k.now ≡ word.now) }
    {
        match self.places.get(place_of(word)) {
            Some(Some(known)) if is_word(known.word.as_slice(), word) => Some(known),
            _ => None,
        }
    }

    fn keep(&mut self, known: Known) {
        let place = place_of(known.word.as_slice());
        if let Some(old) = self.places.get_mut(place) {
            *old = Some(known);
        }
    }

    /// The text of a word.
    pub fn text(&mut self, alloc: Global, word: &[char]) -> Result<Text, NoMemory>
        ensures { IfOk result (λ t. t ≡ encode_utf8_all word.now) }
    {
        if let Some(known) = self.find(word) {
            return known.text();
        }
        let text = Text::from_string(text_of(alloc, word)?)?;
        if word.len() <= LONGEST {
            self.keep(Known {
                word: vec_of(alloc, word)?,
                text: text.share()?,
                name: None,
            });
        }
        Ok(text)
    }

    /// The name of a word.
    pub fn name(&mut self, alloc: Global, word: &[char]) -> Result<Name, NoMemory>
        ensures { IfOk result (λ n. n ≡ name_of word.now) }
    {
        if let Some(known) = self.find(word) {
            if let Some(name) = known.name()? {
                return Ok(name);
            }
        }
        let name = name_of(alloc, word)?;
        if word.len() <= LONGEST {
            self.keep(Known {
                word: vec_of(alloc, word)?,
                text: Text::from_string(text_of(alloc, word)?)?,
                name: Some(name.share()?),
            });
        }
        Ok(name)
    }
}
