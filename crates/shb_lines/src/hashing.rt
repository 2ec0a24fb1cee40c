//! How texts, names and locations, are hashed in tables: by words, under two secret keys.
//!
//! The hash is a chain of products of two words, each joined with a key or with the state so far, and
//! each folded to 64 bits. It is no cryptographic hash. What it keeps off is someone who chooses the
//! texts of a trace: without the keys no texts are known that meet in a table more often than by chance.
//! Who knew the keys could make all texts meet, and a trace would take time with the square of their
//! number. So each table of each run has keys of its own, which are shown nowhere (the tables of classes
//! of one search lend each other theirs). Nothing proves that they are random, since a contract takes
//! whatever a random source gives. Texts that meet cost time alone: the table compares them whole.
ghost use Rattle.std.specs.Prelude.{◌≡◌, ◌+◌, ◌<◌, ◌≤◌, [], ◌∷◌, true, length};
ghost use Rattle.std.specs.Cmp.{on_equiv, on_per, partial_equiv_from_equiv};
ghost use Rattle.std.specs.Cmp.Lexicographic.{nat_list_eq_equiv};
ghost use Rattle.std.specs.Hash.{same_Alike};
ghost use Rattle.std.specs.Int.{w16, w32, w64, from_le_bytes};
ghost use Rattle.std.specs.Str.{bytes_eq};
ghost use Rattle.std.proofs.lemmas.Slice.Eq.{bytes_eq-Decides};
ghost use Rattle.shb_lines.specs.text.Hashing as spec;

use shb_io::{Keys, NoMemory};
use std::hash::{BuildHasher, Hash, Hasher};
use std::random::RandomSource;

/// The longest text that is hashed at once, by its ends.
const MOST_AT_ONCE: usize = 16;

/// Both halves of the 128 bits of a product, joined by xor.
#[tactic(auto, unfolding(crate::specs::text::Hashing::folded_product))]
fn folded_product(a: u64, b: u64) -> u64
    ensures { result ≡ spec.folded_product a b }
{
    let product = u128::from(a) * u128::from(b);
    (product & 0xFFFF_FFFF_FFFF_FFFF) as u64 ^ (product >> 64) as u64
}

/// Eight bytes as a word.
fn eight(bytes: &[u8]) -> u64
    requires { length bytes.now ≡ 8 }
    ensures { result ≡ from_le_bytes w64 bytes.now }
{
    u64::from_le_bytes([
        bytes[0], bytes[1], bytes[2], bytes[3], bytes[4], bytes[5], bytes[6], bytes[7],
    ])
}

/// Four bytes as a word.
fn four(bytes: &[u8]) -> u64
    requires { length bytes.now ≡ 4 }
    ensures { result ≡ from_le_bytes w32 bytes.now }
{
    u64::from(u32::from_le_bytes([bytes[0], bytes[1], bytes[2], bytes[3]]))
}

/// Two bytes as a word.
fn two(bytes: &[u8]) -> u64
    requires { length bytes.now ≡ 2 }
    ensures { result ≡ from_le_bytes w16 bytes.now }
{
    u64::from(u16::from_le_bytes([bytes[0], bytes[1]]))
}

/// The eight bytes from an offset on, as a word.
#[tactic(auto, unfolding(crate::specs::text::Hashing::word_at))]
fn word_at(bytes: &[u8], at: usize) -> u64
    requires { at + 8 ≤ length bytes.now }
    ensures { result ≡ spec.word_at bytes.now at }
{
    eight(&bytes[at..at + 8])
}

/// Whether eight bytes from an offset on are the same in two texts.
#[inline(always)]
fn same_eight(a: &[u8], b: &[u8], at: usize) -> bool
    requires a { at + 8 ≤ length a.now }
    requires b { at + 8 ≤ length b.now }
    ensures { result ≡ true → spec.AreAlike a.now b.now at (at + 8) }
{
    eight(&a[at..at + 8]) == eight(&b[at..at + 8])
}

/// Whether four bytes from an offset on are the same in two texts.
#[inline(always)]
fn same_four(a: &[u8], b: &[u8], at: usize) -> bool
    requires a { at + 4 ≤ length a.now }
    requires b { at + 4 ≤ length b.now }
    ensures { result ≡ true → spec.AreAlike a.now b.now at (at + 4) }
{
    four(&a[at..at + 4]) == four(&b[at..at + 4])
}

/// Whether sixteen bytes from an offset on are the same in two texts.
#[inline(always)]
fn same_sixteen(a: &[u8], b: &[u8], at: usize) -> bool
    requires a { at + 16 ≤ length a.now }
    requires b { at + 16 ≤ length b.now }
    ensures { result ≡ true → spec.AreAlike a.now b.now at (at + 16) }
{
    if same_eight(a, b, at) {
        same_eight(a, b, at + 8)
    } else {
        false
    }
}

/// Whether two texts of at most 3 bytes are the same: they have no byte but the first, the middle and the last.
#[inline(always)]
fn same_few(a: &[u8], b: &[u8]) -> bool
    requires len { length a.now ≡ length b.now }
    requires few { length a.now < 4 }
    ensures { result ≡ true → a.now ≡ b.now }
{
    let n = a.len();
    if n == 0 {
        return true;
    }
    if a[0] != b[0] {
        return false;
    }
    if a[n / 2] != b[n / 2] {
        return false;
    }
    a[n - 1] == b[n - 1]
}

/// Whether two texts of one length are the same. Those of at most 32 bytes are compared by words, which may overlap.
#[inline(always)]
pub fn alike(a: &[u8], b: &[u8]) -> bool
    requires { length a.now ≡ length b.now }
    ensures { result ≡ true → a.now ≡ b.now }
{
    let n = a.len();
    if n > 32 {
        return a == b;
    }
    if n >= 16 {
        if same_sixteen(a, b, 0) {
            return same_sixteen(a, b, n - 16);
        }
        return false;
    }
    if n >= 8 {
        if same_eight(a, b, 0) {
            return same_eight(a, b, n - 8);
        }
        return false;
    }
    if n >= 4 {
        if same_four(a, b, 0) {
            return same_four(a, b, n - 4);
        }
        return false;
    }
    same_few(a, b)
}

/// The state after the two words at an offset.
fn with_words(bytes: &[u8], key: u64, state: u64, at: usize) -> u64
    requires { at + 16 ≤ length bytes.now }
    ensures { result ≡ spec.with_words bytes.now key state at }
{
    folded_product(state ^ word_at(bytes, at), key ^ word_at(bytes, at + 8))
}

/// The first and the last bytes of a text of at most 16, as two words: together they have all of them.
#[tactic(auto, unfolding(crate::specs::text::Hashing::first_word, crate::specs::text::Hashing::last_word))]
fn ends_of(bytes: &[u8]) -> (u64, u64)
    requires { length bytes.now ≤ 16 }
    ensures first { result.0 ≡ spec.first_word bytes.now }
    ensures last { result.1 ≡ spec.last_word bytes.now }
{
    let n = bytes.len();
    if n >= 8 {
        (eight(&bytes[..8]), eight(&bytes[n - 8..]))
    } else if n >= 4 {
        (four(&bytes[..4]), four(&bytes[n - 4..]))
    } else if n >= 2 {
        (two(&bytes[..2]), two(&bytes[n - 2..]))
    } else {
        let byte = if n == 1 { u64::from(bytes[0]) } else { 0 };
        (byte, byte)
    }
}

/// The state after at most 16 bytes: their ends have them all.
#[tactic(auto, unfolding(crate::specs::text::Hashing::short_hash))]
fn short_hash(state: u64, key: u64, bytes: &[u8]) -> u64
    requires { length bytes.now ≤ 16 }
    ensures { result ≡ spec.short_hash state key bytes.now }
{
    let (first, last) = ends_of(bytes);
    folded_product(state ^ first, key ^ last)
}

/// The state after more than 16 bytes: 16 at a time, and the last 16 once more.
fn long_hash(state: u64, key: u64, bytes: &[u8]) -> u64
    requires { 16 < length bytes.now }
    ensures { result ≡ spec.long_hash state key bytes.now }
{
    let len = bytes.len();
    let mut mixed = state;
    let mut at = 0;
    while len - at > 16 {
        mixed = with_words(bytes, key, mixed, at);
        at += 16;
    }
    with_words(bytes, key, mixed, len - 16)
}

/// The state after some bytes.
#[tactic(auto, unfolding(crate::specs::text::Hashing::hash))]
fn hash(state: u64, key: u64, bytes: &[u8]) -> u64
    ensures { result ≡ spec.hash state key bytes.now }
{
    let len = bytes.len();
    let seeded = folded_product(state ^ len as u64, key);
    if len <= MOST_AT_ONCE {
        short_hash(seeded, key, bytes)
    } else {
        long_hash(seeded, key, bytes)
    }
}

/// Hashes bytes by words under two keys; their length goes in first, by a product of its own. (Joined by
/// xor alone, texts of different lengths could be made to meet under all keys.)
#[derive(Clone, Copy)]
pub struct KeyedHasher {
    state: u64,
    key: u64,
}

impl Hasher for KeyedHasher {
    ghost write = { spec.written };

    ghost finish = { λ h. h.state };

    fn finish(&self) -> u64 {
        self.state
    }

    fn write(&mut self, bytes: &[u8]) {
        self.state = hash(self.state, self.key, bytes);
    }
}

/// The two secret keys of a table, which make its hashers.
#[derive(Clone, Copy)]
pub struct HashKeys {
    keys: Keys,
}

impl HashKeys {
    /// Keys from the random source. A source that fails is answered like want of memory.
    pub fn new<R: RandomSource>(rt: &R) -> Result<HashKeys, NoMemory> {
        Ok(HashKeys {
            keys: Keys::random(rt)?,
        })
    }

    /// The hash of a text.
    #[inline(always)]
    pub(crate) fn hash_of(self, bytes: &[u8]) -> u64
        ensures { result ≡ spec.hash_in self bytes.now }
    {
        hash(self.keys.first(), self.keys.second(), bytes)
    }
}

impl BuildHasher for HashKeys {
    type Hasher = KeyedHasher;

    ghost build_hasher = { spec.keyed };

    fn build_hasher(&self) -> KeyedHasher {
        KeyedHasher {
            state: self.keys.first(),
            key: self.keys.second(),
        }
    }
}

/// A text as a key of a table. It is written to a hasher whole, in one call: a slice would be written byte
/// by byte.
#[derive(Clone, Copy)]
pub struct TextKey<'t> {
    pub bytes: &'t [u8],
}

impl PartialEq for TextKey<'_> {
    ghost eq = { λ x y. bytes_eq x.bytes.now y.bytes.now };

    ghost laws = { on_per (λ x. x.bytes.now) (partial_equiv_from_equiv nat_list_eq_equiv) };

    fn eq(&self, other: &Self) -> bool {
        self.bytes == other.bytes
    }
}

impl Eq for TextKey<'_> {
    ghost laws = { on_equiv (λ x. x.bytes.now) nat_list_eq_equiv };
}

impl Hash for TextKey<'_> {
    ghost hash_input = { λ key. key.bytes.now ∷ [] };

    ghost respects_eq = { λ x y. (same_Alike (λ bytes. bytes ∷ []) bytes_eq-Decides).fed x.bytes.now y.bytes.now };

    fn hash<H: Hasher>(&self, state: &mut H) {
        state.write(self.bytes);
    }
}
