// Settings as words, one decimal number each. A number too large for its setting is out of range like any other.
ghost use Rattle.std.specs.Prelude.{◌≡◌};
ghost use Rattle.dialogue.specs.Numbers.{no_numbers, with_number, next_number, are_all, out_of_range_if, given_by, opening_with, opening_of};

use settings::Settings;
use text::reading;
use text::reading::NumberError;

// Numbers that are read one after another. The flags are no error of `value`: they tell of every word so far, it of the last.
#[derive(Clone, Copy)]
pub struct Numbers {
    // The place behind the last word.
    pub at: usize,
    // A word was no number.
    pub bad: bool,
    // A number was too large for its setting.
    pub beyond: bool,
    // The number last read; 0 where it was none, or too large for its setting.
    pub value: u64,
}

// The settings that eleven words give, and how they were read.
#[derive(Clone, Copy)]
pub struct Given {
    pub settings: Settings,
    pub numbers: Numbers,
}

impl Numbers {
    // None was read yet.
    pub fn none() -> Numbers
        ensures { result ≡ no_numbers }
    {
        Numbers {
            at: 0,
            bad: false,
            beyond: false,
            value: 0,
        }
    }

    // The next word is read, for a setting that holds numbers up to most.
    #[tactic(auto, unfolding(crate::specs::Numbers::next_number, crate::specs::Words::word_at))]
    pub fn next(self, words: &[u8], most: u64) -> Numbers
        ensures { result ≡ next_number self words.now most }
    {
        let at = self.at;
        let w = reading::word(words, at);
        let number = reading::decimal(reading::part(words, w.start, w.end));
        self.with(w.end, most, number)
    }

    // A word was read, up to a place.
    #[tactic(auto, using(laws::proofs::Branches::branches), unfolding(crate::specs::Numbers::with_number))]
    fn with(self, at: usize, most: u64, number: Result<u64, NumberError>) -> Numbers
        ensures { result ≡ with_number self at most number }
    {
        match number {
            Ok(n) if n <= most => Numbers {
                at,
                value: n,
                ..self
            },
            Ok(_) | Err(NumberError::TooLarge) => Numbers {
                at,
                beyond: true,
                value: 0,
                ..self
            },
            Err(NumberError::Bad) => Numbers {
                at,
                bad: true,
                value: 0,
                ..self
            },
        }
    }

    // Whether every word was a number, and none is left.
    pub fn are_all(self, words: &[u8]) -> bool
        ensures { result ≡ are_all self words.now }
    {
        if self.bad {
            return false;
        }
        let next = reading::word(words, self.at);
        words.len() <= next.start
    }
}

// The settings that the first eleven words give, in the order of the record.
pub fn settings(words: &[u8]) -> Given
    ensures { result ≡ given_by words.now }
{
    let receive = Numbers::none().next(words, 65535);
    let unit = receive.next(words, 255);
    let block = unit.next(words, 255);
    let t1 = block.next(words, 255);
    let t3 = t1.next(words, 255);
    let t_e = t3.next(words, 65535);
    let mntc = t_e.next(words, 255);
    let mntb = mntc.next(words, 255);
    let t_wait = mntb.next(words, 65535);
    let t_ct = t_wait.next(words, 65535);
    let mnct = t_ct.next(words, 255);
    let settings = Settings {
        receive: receive.value as u16,
        unit: unit.value as u8,
        block: block.value as u8,
        t1: t1.value as u8,
        t3: t3.value as u8,
        t_e: t_e.value as u16,
        mntc: mntc.value as u8,
        mntb: mntb.value as u8,
        t_wait: t_wait.value as u16,
        t_ct: t_ct.value as u16,
        mnct: mnct.value as u8,
    };
    Given {
        settings: out_of_range_if(mnct.beyond, settings),
        numbers: mnct,
    }
}

// The settings that an opening asks for: the defaults where no word is given, and else those that all the words give, if they
// do.
pub fn read_opening(words: &[u8]) -> Option<Settings>
    ensures { result ≡ opening_of words.now }
{
    opening_with(Settings::DEFAULT, words)
}

// The same with other defaults.
#[tactic(auto, using(laws::proofs::Branches::branches), unfolding(crate::specs::Numbers::opening_with))]
pub(crate) fn opening_with(defaults: Settings, words: &[u8]) -> Option<Settings>
    ensures { result ≡ opening_with defaults words.now }
{
    if words.is_empty() {
        return Some(defaults);
    }
    let Given { settings, numbers } = settings(words);
    if numbers.are_all(words) {
        return Some(settings);
    }
    None
}

// Settings that every record refuses, where a number is too large: a receive ID has eleven bits.
fn out_of_range_if(beyond: bool, mut settings: Settings) -> Settings
    ensures { result ≡ out_of_range_if beyond settings }
{
    if beyond {
        settings.receive = 65535;
    }
    settings
}
