// What our settings and the fields of the peer's A0 or A1 agree on, at either end.
ghost use Rattle.std.specs.Prelude.{◌≡◌};
ghost use Rattle.settings.specs.Agreed.{own_fields, agreed};

use crate::Settings;
use sender::Terms;
use telegram::kinds::Parameters as Fields;
use telegram::time::tenths;

// The fields of our own A0 and A1.
pub fn own_fields(s: Settings) -> Fields
    ensures { result ≡ own_fields s }
{
    Fields {
        block: s.block,
        t1: s.t1,
        t3: s.t3,
    }
}

// What our settings and the peer's fields agree on.
pub fn agree(s: Settings, p: Fields) -> channel::Parameters
    ensures { result ≡ agreed s p }
{
    channel::Parameters {
        terms: Terms {
            block: s.block.min(p.block),
            t1: tenths(s.t1),
            t3: tenths(p.t3),
            repeats: s.mntb,
            t_wait: s.t_wait as u32,
        },
        interval: s.t_ct as u32,
        allowed: s.mnct,
        own: own_fields(s),
    }
}
