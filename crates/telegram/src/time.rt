// Time codes, and timers that run down.
ghost use Rattle.std.specs.Prelude.{◌≡◌, ◌-◌, ◌/◌, ◌^◌};
ghost use Rattle.telegram.specs.Time.{tenths_of};

// A time code in tenths of a millisecond, by one multiplication.
pub fn tenths(code: u8) -> u32
    ensures { result ≡ tenths_of code }
{
    let multiplier = code as u32 % 64;
    multiplier * unit(code)
}

// The unit of a time code in tenths: bit 6 is ten times, bit 7 a hundred times. It is chosen among constants, which costs no
// multiplication.
fn unit(code: u8) -> u32
    ensures { result ≡ 10 ^ (code / 64) }
{
    let low = if code % 128 < 64 { 1 } else { 10 };
    let high = if code % 128 < 64 { 100 } else { 1000 };
    if code < 128 { low } else { high }
}

// What is left of a timer: it stops at zero.
pub fn less(timer: u32, by: u64) -> u32
    ensures { result ≡ timer - by }
{
    (timer as u64).saturating_sub(by) as u32
}
