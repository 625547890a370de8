// Entries of 8, 16 and 64 bits: a slice of them filled by a pattern, and its digest.
ghost use Rattle.std.specs.Prelude.{ℕ, ◌<◌};
ghost use Rattle.std.proofs.Common.{lit<};

use std::num::NonZeroU64;

const STEP: u64 = 7919;

// A prime: the digest stays within 32 bits.
const DIGEST_PRIME: u64 = 4294967291;

// What an entry of a slice may be.
pub trait Entry: Copy + Drop {
    // A prime, so that a filled slice uses nearly the full width.
    const PRIME: u64;

    ghost PRIME: { ℕ };

    ghost positive: { 0 < PRIME };

    // x mod the prime.
    fn of(x: u64) -> Self;

    fn wide(self) -> u64;
}

impl Entry for u8 {
    const PRIME: u64 = 251;

    ghost PRIME = { 251 };

    ghost positive = { lit< tt };

    fn of(x: u64) -> u8 {
        (x % Self::PRIME) as u8
    }

    fn wide(self) -> u64 {
        u64::from(self)
    }
}

impl Entry for u16 {
    const PRIME: u64 = 65521;

    ghost PRIME = { 65521 };

    ghost positive = { lit< tt };

    fn of(x: u64) -> u16 {
        (x % Self::PRIME) as u16
    }

    fn wide(self) -> u64 {
        u64::from(self)
    }
}

impl Entry for u64 {
    const PRIME: u64 = 18446744073709551557;

    ghost PRIME = { 18446744073709551557 };

    ghost positive = { lit< tt };

    fn of(x: u64) -> u64 {
        x % Self::PRIME
    }

    fn wide(self) -> u64 {
        self
    }
}

// Entry by entry SEED + 7,919 × i, mod the width's prime and then mod the limit.
pub fn fill<T: Entry>(slice: &mut [T], seed: u64, limit: NonZeroU64) {
    let step = STEP % T::PRIME;
    let mut x = seed % T::PRIME;
    for entry in slice {
        *entry = T::of(x % limit);
        // x + step may pass 64 bits.
        x = if x < T::PRIME - step {
            x + step
        } else {
            x - (T::PRIME - step)
        };
    }
}

// Taking an entry mod the prime first keeps the sum within 64 bits.
pub fn digest<T: Entry>(slice: &[T]) -> u32 {
    slice.iter().fold(7, |h: u32, x| {
        ((u64::from(h) * 31 + x.wide() % DIGEST_PRIME + 1) % DIGEST_PRIME) as u32
    })
}
