//! The numbers that samples are made from.

ghost use Rattle.std.specs.Prelude.{◌≡◌, ◌<◌, ◌≤◌, ◌^◌};
ghost use Rattle.st_samples.specs.Generator as generator;
ghost use Rattle.st_samples.specs.Generator.{next_of, tick};

/// The multiplier of the generator, which is that of D. E. Knuth's MMIX.
const MULTIPLIER: u64 = 6_364_136_223_846_793_005;

/// The increment of the generator, from the same source.
const INCREMENT: u64 = 1_442_695_040_888_963_407;

/// The number that follows x in a linear congruential generator modulo 2^64.
pub fn next(x: u64) -> u64
    ensures { result ≡ next_of x }
{
    x.wrapping_mul(MULTIPLIER).wrapping_add(INCREMENT)
}

/// A tick of a clock that has ticks from 0 to a total of at most 10^18.
pub fn tick_of(x: u64, total: u64) -> u64
    requires { total ≤ 10 ^ 18 }
    ensures value { result ≡ tick x total }
    ensures within { result ≤ total }
{
    (x >> 20) % (total + 1)
}

/// The whole seconds of a sample time.
pub(crate) fn seconds(x: u64) -> u64
    ensures value { result ≡ generator.seconds x }
    ensures below { result < 2 ^ 31 }
{
    (x >> 20) % (1 << 31)
}

/// The milliseconds after its whole seconds.
pub(crate) fn milliseconds(x: u64) -> u64
    ensures value { result ≡ generator.milliseconds x }
    ensures below { result < 1_000 }
{
    (x >> 8) % 1_000
}
