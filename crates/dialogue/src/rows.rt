// An opening in TP 1.6 as words: the row's name, and settings behind it.
ghost use Rattle.std.specs.Prelude.{◌≡◌};
ghost use Rattle.settings.specs.Settings.{defaults16};
ghost use Rattle.dialogue.specs.Numbers.{opening_with};
ghost use Rattle.dialogue.specs.Rows.{row_of, opening_as, opening16_of};

use crate::numbers::opening_with;
use crate::words::{behind_word, letters, word};
use profile::Profile;
use settings::Settings;

// What an opening in TP 1.6 asks for.
#[derive(Clone, Copy)]
pub struct Opening16 {
    pub profile: Profile,
    pub settings: Settings,
}

// The names of the rows, as the numbers that their letters make; high and low are infotainment's. Numbers as the calls' names
// are: `row_of` takes them so.
const DRIVE: u64 = 0x6472697665;

const COMFORT: u64 = 0x636F6D666F7274;

const HIGH: u64 = 0x68696768;

const LOW: u64 = 0x6C6F77;

// The row that the first word names, and the settings that those behind it give: the row's defaults where there are none. It
// asks for nothing where they are no opening.
#[tactic(auto, unfolding(crate::specs::Rows::opening16_of, crate::specs::Rows::opening_in))]
pub fn read_opening_16(words: &[u8]) -> Option<Opening16>
    ensures { result ≡ opening16_of words.now }
{
    let profile = row_of(letters(word(words)))?;
    opening_as(profile, behind_word(words))
}

// The row of TP 1.6 of that name.
#[tactic(auto, using(laws::proofs::Branches::branches), unfolding(crate::specs::Rows::row_of))]
fn row_of(name: u64) -> Option<Profile>
    ensures { result ≡ row_of name }
{
    match name {
        DRIVE => Some(Profile::drive()),
        COMFORT => Some(Profile::comfort()),
        HIGH => Some(Profile::high()),
        LOW => Some(Profile::low()),
        _ => None,
    }
}

// The settings of an opening in a row.
#[tactic(auto, unfolding(crate::specs::Rows::opening_as))]
fn opening_as(profile: Profile, words: &[u8]) -> Option<Opening16>
    ensures { result ≡ opening_as profile (opening_with (defaults16 profile) words.now) }
{
    let settings = opening_with(Settings::default_16(profile), words)?;
    Some(Opening16 { profile, settings })
}
