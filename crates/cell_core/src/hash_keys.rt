// The keys of the hash maps whose entries come from files.
ghost use Rattle.std.specs.Prelude.{IfOk, false, true, ◌≡◌};
ghost use Rattle.cell_core.specs.HashKeys.{initial_hasher, is_drawn};

use std::hash::{BuildHasher, DefaultHasher, RandomState};
use std::io;
use std::random::RandomSource;

/// The keys under which maps hash what comes from files: texts, ids and tuples. No contract depends
/// on them.
#[derive(Clone, Copy)]
pub struct HashKeys {
    drawn: Option<RandomState>,
}

impl HashKeys {
    /// The same keys in each run. Whoever writes a file can choose texts that collide under them.
    pub fn fixed() -> HashKeys
        ensures { is_drawn result ≡ false }
    {
        HashKeys { drawn: None }
    }

    /// Keys drawn from the system's source of random bytes.
    pub fn draw(source: &impl RandomSource) -> io::Result<HashKeys>
        ensures { IfOk result (λ keys. is_drawn keys ≡ true) }
    {
        let drawn = RandomState::new(source)?;
        Ok(HashKeys { drawn: Some(drawn) })
    }

    /// A number that only the keys determine.
    pub fn number(&self) -> u32 {
        (self.hash_one(0u32) & 0xFFFF_FFFF) as u32
    }
}

impl BuildHasher for HashKeys {
    type Hasher = DefaultHasher;

    ghost build_hasher = { initial_hasher };

    fn build_hasher(&self) -> DefaultHasher {
        match &self.drawn {
            Some(keys) => keys.build_hasher(),
            None => DefaultHasher::new(),
        }
    }
}
