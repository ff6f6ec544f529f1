// The eleven settings of an end, their ranges and their defaults, by the profile.
#![tactic(auto)]

ghost use Rattle.std.specs.Prelude.{◌≡◌};
ghost use Rattle.settings.specs.Settings.{defaults, defaults16, wait_allowed, allowed_by, allowed, used};

use profile::Profile;
use telegram::kinds::bad_block;
use telegram::time::tenths;

pub mod agreed;

// The settings, by the standard's names. T1 and T3 are time codes; T_E, T_WAIT and T_CT are tenths of a millisecond.
#[derive(Clone, Copy)]
pub struct Settings {
    // Our own receive ID.
    pub receive: u16,
    // The unit's address.
    pub unit: u8,
    // The block size that we offer.
    pub block: u8,
    // The wait for an Ack.
    pub t1: u8,
    // The time that we want between data frames.
    pub t3: u8,
    // The wait for a reply while opening.
    pub t_e: u16,
    // How often each request of the opening is repeated.
    pub mntc: u8,
    // The repeats allowed to a block.
    pub mntb: u8,
    // How long a peer that is not ready holds the data back.
    pub t_wait: u16,
    // The test interval; 0 is no tests.
    pub t_ct: u16,
    // The unanswered tests allowed.
    pub mnct: u8,
}

impl Settings {
    pub const DEFAULT: Settings = Settings {
        receive: 0x300,
        unit: 0x01,
        block: 8,
        t1: 0x8A,
        t3: 0x32,
        t_e: 1000,
        mntc: 10,
        mntb: 5,
        t_wait: 1000,
        t_ct: 10000,
        mnct: 5,
    };

    // The defaults, for the contracts: a constant of the code has no name there.
    pub fn default() -> Settings
        ensures { result ≡ defaults }
    {
        Settings::DEFAULT
    }

    // The defaults of a row of TP 1.6: those above but for these five. TP 2.0 has `default`.
    pub fn default_16(row: Profile) -> Settings
        ensures { result ≡ defaults16 row }
    {
        let mut s = Settings::DEFAULT;
        s.receive = row.receives.least;
        s.unit = (row.units.least % 256) as u8;
        s.t3 = 0x4A;
        s.mntc = 20;
        s.t_wait = 500;
        s
    }

    // Whether every setting is in its range for TP 2.0.
    pub fn in_range(self) -> bool
        ensures { result ≡ allowed self }
    {
        self.in_range_of(Profile::tp20())
    }

    // Whether every setting is in its range for a profile. Tests joined by `&` are all made: none guards another.
    #[tactic(auto, unfolding(crate::specs::Settings::allowed_by))]
    pub fn in_range_of(self, profile: Profile) -> bool
        ensures { result ≡ allowed_by profile self }
    {
        let receives = profile.receives;
        let receive = receives.has(self.receive as u32);
        let units = profile.units;
        let unit = units.has(self.unit as u32);
        let block = self.block;
        let no_block = bad_block(block);
        let t3 = tenths(self.t3);
        let waits = self.waits_within(profile);
        receive
            & unit
            & !no_block
            & (self.t1 % 64 != 0)
            & (1 <= self.t_e)
            & (self.t_e <= 10000)
            & (1 <= self.t_wait)
            & (profile.least_t3 as u32 <= t3)
            & waits
    }

    // Whether T_WAIT lies between T3 and T1, if it must.
    fn waits_within(self, profile: Profile) -> bool
        ensures { result ≡ wait_allowed profile self }
    {
        let t_wait = self.t_wait as u32;
        let t3 = tenths(self.t3);
        let t1 = tenths(self.t1);
        !profile.bounded | ((t3 < t_wait) & (t_wait < t1))
    }

    // The settings that are made use of: without tests, their interval is 0.
    pub fn used_by(mut self, profile: Profile) -> Settings
        ensures { result ≡ used profile self }
    {
        if profile.tests {
            return self;
        }
        self.t_ct = 0;
        self
    }
}
