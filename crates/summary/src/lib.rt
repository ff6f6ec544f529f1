// The running summary of a bus log: how many of its frames fell in each class. It is lent, and frames are absorbed into it.
#![tactic(auto)]

ghost use Rattle.std.specs.Prelude.{◌≡◌};
ghost use Rattle.summary.specs.Classes.{class_of};
ghost use Rattle.summary.specs.Counting.{grown, absorbed, absorbed_all, empty, frames_of};

use follow::Fate;

// What can become of a frame.
#[derive(Clone, Copy)]
pub enum Class {
    Used,
    OutOfPlace,
    Broken,
    ThrownAway,
    Refused,
    Control,
    OtherIds,
}

// The frames of each class.
#[derive(Clone, Copy, Default)]
pub struct Summary {
    pub used: u32,
    pub out_of_place: u32,
    pub broken: u32,
    pub thrown_away: u32,
    pub refused: u32,
    pub control: u32,
    pub other_ids: u32,
}

// The one class that a frame falls in, by what became of it.
pub fn class_of(fate: Fate) -> Class
    ensures { result ≡ class_of fate }
{
    match fate {
        Fate::OtherIds => Class::OtherIds,
        Fate::Used => Class::Used,
        Fate::Shown(_) => Class::Used,
        Fate::OutOfPlace(_) => Class::OutOfPlace,
        Fate::Broken(_) => Class::Broken,
        Fate::ThrownAway => Class::ThrownAway,
        Fate::Refused => Class::Refused,
        Fate::BadlyFormed => Class::Refused,
        Fate::Control => Class::Control,
    }
}

// A counter with so many frames more. At its largest value it stays there.
#[tactic(auto, using(laws::proofs::Branches::branches), unfolding(crate::specs::Counting::grown))]
pub fn grown(count: u32, frames: u32) -> u32
    ensures { result ≡ grown count frames }
{
    count.saturating_add(frames)
}

impl Summary {
    // No frame counted.
    pub fn empty() -> Summary
        ensures { result ≡ empty }
    {
        Summary::default()
    }

    // With so many frames of a class more.
    #[tactic(auto, unfolding(crate::specs::Counting::absorbed))]
    pub fn with(mut self, class: Class, frames: u32) -> Summary
        ensures { result ≡ absorbed self class frames }
    {
        match class {
            Class::Used => self.used = grown(self.used, frames),
            Class::OutOfPlace => self.out_of_place = grown(self.out_of_place, frames),
            Class::Broken => self.broken = grown(self.broken, frames),
            Class::ThrownAway => self.thrown_away = grown(self.thrown_away, frames),
            Class::Refused => self.refused = grown(self.refused, frames),
            Class::Control => self.control = grown(self.control, frames),
            Class::OtherIds => self.other_ids = grown(self.other_ids, frames),
        }
        self
    }

    // The frames of all classes.
    pub fn frames(self) -> u64
        ensures { result ≡ frames_of self }
    {
        let channel = self.used as u64 + self.out_of_place as u64 + self.broken as u64;
        let lost = self.thrown_away as u64 + self.refused as u64;
        channel + lost + self.control as u64 + self.other_ids as u64
    }
}

// So many frames of a class go into the lent summary.
pub fn absorb(summary: &mut Summary, class: Class, frames: u32)
    ensures { summary.new ≡ absorbed summary.old class frames }
{
    *summary = (*summary).with(class, frames);
}

// The frames that were met, class by class.
#[tactic(auto, unfolding(crate::specs::Counting::absorbed_all))]
pub fn absorb_all(summary: &mut Summary, met: Summary)
    ensures { summary.new ≡ absorbed_all summary.old met }
{
    absorb(summary, Class::Used, met.used);
    absorb(summary, Class::OutOfPlace, met.out_of_place);
    absorb(summary, Class::Broken, met.broken);
    absorb(summary, Class::ThrownAway, met.thrown_away);
    absorb(summary, Class::Refused, met.refused);
    absorb(summary, Class::Control, met.control);
    absorb(summary, Class::OtherIds, met.other_ids);
}
