//! The secret keys of a table, which only this module can make.
ghost use Rattle.std.specs.Prelude.{◌≡◌};

use crate::no_memory::NoMemory;
use std::random::RandomSource;

/// Two keys of 64 bits that a random source gave. No other module can make them, so none can choose them.
/// That the source's numbers are random is no contract's to say.
#[derive(Clone, Copy)]
pub struct Keys {
    first: u64,
    second: u64,
}

impl Keys {
    /// Two keys of the random source. `NoMemory` where it failed.
    pub fn random<R: RandomSource>(rt: &R) -> Result<Keys, NoMemory> {
        let mut bytes = [0; 16];
        let Ok(()) = rt.fill_bytes(&mut bytes) else {
            return Err(NoMemory::of_random_source());
        };
        let keys = u128::from_le_bytes(bytes);
        Ok(Keys {
            first: (keys & 0xFFFF_FFFF_FFFF_FFFF) as u64,
            second: (keys >> 64) as u64,
        })
    }

    /// The first of them.
    pub fn first(self) -> u64
        ensures { result ≡ self.first }
    {
        self.first
    }

    /// The second of them.
    pub fn second(self) -> u64
        ensures { result ≡ self.second }
    {
        self.second
    }
}
