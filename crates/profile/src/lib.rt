// A profile: the numbers in which TP 2.0 and the rows of TP 1.6 (SAE J3054) differ, and what opening and sorting read of them.
#![tactic(auto)]

ghost use Rattle.std.specs.Prelude.{◌≡◌};
ghost use Rattle.profile.specs.Profile.{within, tp20, drive, comfort, high, low, test_or_break, sorted_by};
ghost use Rattle.profile.specs.Opening.{answers_on, request_for, named, reply_for};

use opening::{ReplyError, read_reply, short, write_request};
use telegram::kinds::{Sorted, Telegram, sort};
use telegram::payload::Payload;

// Numbers from the least to the most, both belonging to it. Not std's range, which is no `Copy`.
#[derive(Clone, Copy)]
pub struct Range {
    pub least: u16,
    pub most: u16,
}

// The numbers of a profile.
#[derive(Clone, Copy)]
pub struct Profile {
    // The CAN ID of the C0.
    pub request: u16,
    // The unit answers on this ID and its own number.
    pub reply: u16,
    // What a reply's ID lacks; 0 where the reply names the whole ID.
    pub offset: u16,
    // The units that can be asked.
    pub units: Range,
    // Our receive IDs.
    pub receives: Range,
    // The transmit IDs that a reply can name.
    pub transmits: Range,
    // Opening frames have three bytes, else seven.
    pub short: bool,
    // Tests and breaks are telegrams, and tests go out.
    pub tests: bool,
    // The least T3 setting, in tenths of a millisecond.
    pub least_t3: u16,
    // T_WAIT lies strictly between our own T3 and T1.
    pub bounded: bool,
}

impl Range {
    // Whether a number lies in it.
    #[tactic(auto, using(laws::proofs::Branches::branches), unfolding(crate::specs::Profile::within))]
    pub fn has(self, n: u32) -> bool
        ensures { result ≡ within self n }
    {
        self.least as u32 <= n && n <= self.most as u32
    }
}

impl Profile {
    // Each row is a value, and they differ in every number.
    pub const TP20: Profile = Profile {
        request: 0x200,
        reply: 0x200,
        offset: 0x000,
        units: Range {
            least: 0x00,
            most: 0xEF,
        },
        receives: Range {
            least: 0x000,
            most: 0x7FF,
        },
        transmits: Range {
            least: 0x000,
            most: 0x7FF,
        },
        short: false,
        tests: true,
        least_t3: 0,
        bounded: false,
    };

    pub const DRIVE: Profile = Profile {
        request: 0x200,
        reply: 0x200,
        offset: 0x700,
        units: Range {
            least: 0x00,
            most: 0x1F,
        },
        receives: Range {
            least: 0x740,
            most: 0x7BF,
        },
        transmits: Range {
            least: 0x740,
            most: 0x7BF,
        },
        short: true,
        tests: false,
        least_t3: 100,
        bounded: true,
    };

    pub const COMFORT: Profile = Profile {
        request: 0x2D0,
        reply: 0x2E0,
        offset: 0x300,
        units: Range {
            least: 0x00,
            most: 0x1F,
        },
        receives: Range {
            least: 0x300,
            most: 0x31F,
        },
        transmits: Range {
            least: 0x320,
            most: 0x33F,
        },
        short: true,
        tests: false,
        least_t3: 100,
        bounded: true,
    };

    // Infotainment, high priority.
    pub const HIGH: Profile = Profile {
        request: 0x2D0,
        reply: 0x4A0,
        offset: 0x400,
        units: Range {
            least: 0x30,
            most: 0x3F,
        },
        receives: Range {
            least: 0x4E0,
            most: 0x4EF,
        },
        transmits: Range {
            least: 0x4F0,
            most: 0x4FF,
        },
        short: true,
        tests: false,
        least_t3: 100,
        bounded: true,
    };

    // Infotainment, low priority.
    pub const LOW: Profile = Profile {
        request: 0x2D0,
        reply: 0x4A0,
        offset: 0x600,
        units: Range {
            least: 0x30,
            most: 0x3F,
        },
        receives: Range {
            least: 0x690,
            most: 0x69F,
        },
        transmits: Range {
            least: 0x6B0,
            most: 0x6BF,
        },
        short: true,
        tests: false,
        least_t3: 100,
        bounded: true,
    };

    // The constants, for the contracts: a constant of the code has no name there.
    pub fn tp20() -> Profile
        ensures { result ≡ tp20 }
    {
        Profile::TP20
    }

    pub fn drive() -> Profile
        ensures { result ≡ drive }
    {
        Profile::DRIVE
    }

    pub fn comfort() -> Profile
        ensures { result ≡ comfort }
    {
        Profile::COMFORT
    }

    pub fn high() -> Profile
        ensures { result ≡ high }
    {
        Profile::HIGH
    }

    pub fn low() -> Profile
        ensures { result ≡ low }
    {
        Profile::LOW
    }

    // Whether a unit answers on this ID.
    pub fn answers_on(self, unit: u8, id: u16) -> bool
        ensures { result ≡ answers_on self unit id }
    {
        id as u32 == self.reply as u32 + unit as u32
    }

    // The C0 to a unit, by an end that receives on the given ID.
    #[tactic(auto, using(laws::proofs::Branches::branches), unfolding(crate::specs::Opening::request_for))]
    pub fn request_to(self, unit: u8, receive: u16) -> Payload
        ensures { result ≡ request_for self unit receive }
    {
        if self.short {
            short::write_request(unit, receive)
        } else {
            write_request(unit, receive)
        }
    }

    // Reads a reply to the C0 against our own receive ID: the ID to transmit on.
    #[tactic(auto, using(laws::proofs::Branches::branches), unfolding(crate::specs::Opening::reply_for))]
    pub fn read_reply(self, s: &[u8], receive: u16) -> Result<u16, ReplyError>
        ensures { result ≡ reply_for self s.now receive }
    {
        if self.short {
            self.named(short::read_reply(s))
        } else {
            self.named(read_reply(s, receive))
        }
    }

    // A reply by the profile: the offset is added to the ID that a positive one names, and the sum must be a transmit ID.
    fn named(self, reply: Result<u16, ReplyError>) -> Result<u16, ReplyError>
        ensures { result ≡ named self reply }
    {
        let transmit = self.offset as u32 + reply? as u32;
        if self.transmits.has(transmit) {
            Ok(transmit as u16)
        } else {
            Err(ReplyError::Malformed)
        }
    }

    // Sorts a telegram into its kind: without tests, a test or a break is no telegram.
    #[tactic(auto, using(laws::proofs::Branches::branches), unfolding(crate::specs::Profile::sorted_by))]
    pub fn sort(self, s: &[u8]) -> Sorted
        ensures { result ≡ sorted_by self s.now }
    {
        let sorted = sort(s);
        if test_or_break(sorted.kind) && !self.tests {
            Sorted {
                kind: Telegram::Malformed,
                padded: false,
            }
        } else {
            sorted
        }
    }
}

// Whether a telegram is a test or a break.
fn test_or_break(kind: Telegram) -> bool
    ensures { result ≡ test_or_break kind }
{
    matches!(kind, Telegram::Test | Telegram::Break)
}
