// The words that a tool is started with: `[--room N] [--chunk N] [FILE]`, and `[--places N]` before them for a tool that makes a
// list; options in any order before the file, each at most once. They are taken one by one; the first that is wrong is kept,
// with what is wrong about it.
ghost use Rattle.std.specs.Prelude.{◌≡◌, take};
ghost use Rattle.log_tools.specs.Options.{place_of, is_option, fresh, takes, default_of, unset, setting, number_for, refused, awaiting, numbered, named, option_named, on_number, on_option, word_taken, held_taken, words_ended};

use telegram::cutting::LONGEST;
use text::reading::{NumberError, decimal, part};

// The options, each of which has a number behind it.
#[derive(Clone, Copy)]
pub enum Name {
    // The bytes lent for a message of each side.
    Room,
    // The characters read at a time.
    Chunk,
    // The places of the list.
    Places,
}

// What can be wrong.
#[derive(Clone, Copy)]
pub enum Fault {
    NoOption,
    Twice,
    // No number that the option takes, or none at all.
    NoNumber(Name),
    // A word behind the file.
    SecondFile,
    // A caller's own number, which names none of these: told as no such option.
    Other(u8),
}

// What is wrong, and the place of the word that is; None, or 0, where a word is missing.
#[derive(Clone, Copy)]
pub struct Wrong {
    pub fault: Fault,
    pub place: Option<usize>,
}

// An option's number, and whether a word gave it. No Option: the number stands where none is given, and a caller may set another.
#[derive(Clone, Copy)]
pub struct Setting {
    pub number: usize,
    pub given: bool,
}

// What comes next.
#[derive(Clone, Copy)]
pub enum Awaited {
    // The number of an option.
    Number(Name),
    // A caller's own number, which names no option: a word as ever, but for one that fills its buffer.
    Other(u8),
}

// What the words came to. Every call is promised for every such record, whatever a caller put there.
#[derive(Clone, Copy)]
pub struct Options {
    // Whether the tool makes a list, and so has the option of its places.
    pub lists: bool,
    pub room: Setting,
    pub chunk: Setting,
    pub places: Setting,
    // What comes next, if it is not any word.
    pub awaits: Option<Awaited>,
    // The place of the file's name among the words.
    pub file: Option<usize>,
    // The first word that is wrong.
    pub wrong: Option<Wrong>,
}

// Lends so much of a buffer, as far as it goes.
pub fn lend<T>(buffer: &mut [T], length: usize) -> &mut [T]
    ensures { result.now ≡ take length buffer.old }
{
    let end = length.min(buffer.len());
    &mut buffer[..end]
}

// A place among the words, which are counted from 1; 0 is none.
fn place_of(place: usize) -> Option<usize>
    ensures { result ≡ place_of place }
{
    if place == 0 { None } else { Some(place) }
}

fn is_option(word: &[u8]) -> bool
    ensures { result ≡ is_option word.now }
{
    word.starts_with(b"-")
}

// The option of a name; that of places for a tool that makes a list.
#[tactic(auto, using(laws::proofs::Branches::branches), unfolding(crate::specs::Options::option_named))]
fn option_named(lists: bool, word: &[u8]) -> Option<Name>
    ensures { result ≡ option_named lists word.now }
{
    if word == b"--room".as_slice() {
        Some(Name::Room)
    } else if word == b"--chunk".as_slice() {
        Some(Name::Chunk)
    } else if lists && word == b"--places".as_slice() {
        Some(Name::Places)
    } else {
        None
    }
}

impl Name {
    // Whether the option takes a number.
    #[tactic(auto, unfolding(crate::specs::Options::takes))]
    fn takes(self, n: u64) -> bool
        ensures { result ≡ takes self n }
    {
        match self {
            Name::Room => n <= 4095,
            Name::Chunk => 1 <= n && n <= 65536,
            Name::Places => n <= 4096,
        }
    }

    // The number where none is given.
    #[tactic(auto, unfolding(crate::specs::Options::default_of))]
    fn default(self) -> usize
        ensures { result ≡ default_of self }
    {
        match self {
            Name::Room => LONGEST as usize,
            Name::Chunk => 65536,
            Name::Places => 4096,
        }
    }

    // The option where no number is given.
    fn unset(self) -> Setting
        ensures { result ≡ unset self }
    {
        Setting {
            number: self.default(),
            given: false,
        }
    }
}

impl Options {
    // No word taken.
    pub fn fresh(lists: bool) -> Options
        ensures { result ≡ fresh lists }
    {
        Options {
            lists,
            room: Name::Room.unset(),
            chunk: Name::Chunk.unset(),
            places: Name::Places.unset(),
            awaits: None,
            file: None,
            wrong: None,
        }
    }

    // The number given for an option, or the one that stands where none is.
    pub fn number(self, option: Name) -> usize
        ensures { result ≡ number_for self option }
    {
        self.setting(option).number
    }

    // The word at a place, from 1, behind those taken.
    #[tactic(auto, using(laws::proofs::Branches::branches), unfolding(crate::specs::Options::word_taken, crate::specs::Options::next_taken))]
    pub fn take_word(self, place: usize, word: &[u8]) -> Options
        ensures { result ≡ word_taken self place word.now }
    {
        if self.wrong.is_some() {
            return self;
        }
        let place = place_of(place);
        if let Some(Awaited::Number(option)) = self.awaits {
            return self.on_number(option, place, decimal(word));
        }
        if self.file.is_some() {
            return self.refused(Fault::SecondFile, place);
        }
        if is_option(word) {
            return self.on_option(place, option_named(self.lists, word));
        }
        self.named(place)
    }

    // The same of a word whose characters, so many, a buffer holds. One that fills the buffer may be longer: it is no number.
    #[tactic(auto, using(laws::proofs::Branches::branches), unfolding(crate::specs::Options::held_taken))]
    pub fn take_held(self, place: usize, buffer: &[u8], n: usize) -> Options
        ensures { result ≡ held_taken self place buffer.now n }
    {
        if buffer.len() <= n && self.awaits.is_some() {
            return self.take_word(place, b"");
        }
        self.take_word(place, part(buffer, 0, n))
    }

    // No word is left.
    #[tactic(auto, using(laws::proofs::Branches::branches), unfolding(crate::specs::Options::words_ended, crate::specs::Options::number_missing))]
    pub fn end(self) -> Options
        ensures { result ≡ words_ended self }
    {
        if self.wrong.is_some() {
            return self;
        }
        let Some(Awaited::Number(option)) = self.awaits else {
            return self;
        };
        self.refused(Fault::NoNumber(option), None)
    }

    #[tactic(auto, unfolding(crate::specs::Options::setting))]
    fn setting(self, option: Name) -> Setting
        ensures { result ≡ setting self option }
    {
        match option {
            Name::Room => self.room,
            Name::Chunk => self.chunk,
            Name::Places => self.places,
        }
    }

    fn refused(self, fault: Fault, place: Option<usize>) -> Options
        ensures { result ≡ refused self fault place }
    {
        Options {
            wrong: Some(Wrong { fault, place }),
            ..self
        }
    }

    fn named(self, place: Option<usize>) -> Options
        ensures { result ≡ named self place }
    {
        Options {
            file: place,
            ..self
        }
    }

    #[tactic(auto, unfolding(crate::specs::Options::numbered))]
    fn numbered(mut self, option: Name, n: usize) -> Options
        ensures { result ≡ numbered self option n }
    {
        let setting = Setting {
            number: n,
            given: true,
        };
        self.awaits = None;
        match option {
            Name::Room => self.room = setting,
            Name::Chunk => self.chunk = setting,
            Name::Places => self.places = setting,
        }
        self
    }

    #[tactic(auto, using(laws::proofs::Branches::branches), unfolding(crate::specs::Options::on_number))]
    fn on_number(
        self,
        option: Name,
        place: Option<usize>,
        number: Result<u64, NumberError>,
    ) -> Options
        ensures { result ≡ on_number self option place number }
    {
        match number {
            Ok(n) if option.takes(n) => self.numbered(option, n as usize),
            _ => self.refused(Fault::NoNumber(option), place),
        }
    }

    #[tactic(auto, using(laws::proofs::Branches::branches), unfolding(crate::specs::Options::on_option))]
    fn on_option(self, place: Option<usize>, option: Option<Name>) -> Options
        ensures { result ≡ on_option self place option }
    {
        let Some(option) = option else {
            return self.refused(Fault::NoOption, place);
        };
        if self.setting(option).given {
            return self.refused(Fault::Twice, place);
        }
        Options {
            awaits: Some(Awaited::Number(option)),
            ..self
        }
    }
}
