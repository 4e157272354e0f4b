// Draws from the key stream of a seed.
ghost use Rattle.std.specs.Prelude.{◌≡◌, ◌<◌, ◌+◌, ◌^◌};
ghost use Rattle.av_draw.specs.Drawn.{drawn, stream_word, seed_bytes, stream_at, joined_words, Draws};

use rand_chacha::ChaCha20Rng;
use rand_core::SeedableRng;
use rand_core::utils::NextWord;
use std::marker::Model;

/// The key of a seed.
fn key_of_seed(seed: u64) -> [u8; 32]
    ensures { result ≡ seed_bytes seed }
{
    let mut key = [0u8; 32];
    key[..8].copy_from_slice(&seed.to_le_bytes());
    key
}

/// Four words as one number, the least first.
fn joined_words(first: u32, second: u32, third: u32, fourth: u32) -> u128
    ensures { result ≡ joined_words first second third fourth }
{
    u128::from(first)
        + (1 << 32) * u128::from(second)
        + (1 << 64) * u128::from(third)
        + (1 << 96) * u128::from(fourth)
}

/// The next four words of the stream, as one number.
#[tactic(auto, unfolding(crate::specs::Drawn::stream_word))]
fn next_four(stream: &mut ChaCha20Rng, seed: u64, place: u64) -> u128
    requires stands { stream.old ≡ stream_at seed place }
    requires room { place < 2 ^ 40 }
    ensures value { result ≡ joined_words (stream_word seed place) (stream_word seed (place + 1)) (stream_word seed (place + 2)) (stream_word seed (place + 3)) }
    ensures moved { stream.new ≡ stream_at seed (place + 4) }
{
    let first = stream.next_word();
    let second = stream.next_word();
    let third = stream.next_word();
    let fourth = stream.next_word();
    joined_words(first, second, third, fourth)
}

/// A source of drawn numbers, seen as its seed and the number of draws made.
#[derive(Drop)]
pub struct Drawer {
    seed: u64,
    made: u64,
    stream: ChaCha20Rng,
}

impl Model for Drawer {
    ghost use Rattle.std.specs.Prelude.{◌≡◌, ◌≤◌, ◌*◌, ◌^◌};
    ghost use Rattle.av_draw.specs.Drawn.{Draws, stream_at};

    ghost Value = { Draws };

    ghost view = { λ d. record { seed = d.seed; made = d.made } };

    ghost invariant = { λ d. (d.stream ≡ stream_at d.seed (4 * d.made)) × (d.made ≤ 2 ^ 32) };
}

impl Drawer {
    /// The draws of a seed, of which none was made yet. Equal seeds give equal draws.
    pub fn new(seed: u64) -> Drawer
        ensures { result ≡ record { seed = seed; made = 0 } }
    {
        Drawer {
            seed,
            made: 0,
            stream: ChaCha20Rng::from_seed(key_of_seed(seed)),
        }
    }

    /// The next drawn number, which is below the count. A drawer makes at most 2^32 draws.
    pub fn next(&mut self, count: u128) -> u128
        requires some { 0 < count }
        requires room { self.old.made < 2 ^ 32 }
        ensures drawn { result ≡ drawn self.old.seed self.old.made count }
        ensures below { result < count }
        ensures moved { self.new ≡ record self.old { made = self.old.made + 1 } }
    {
        let number = next_four(&mut self.stream, self.seed, 4 * self.made);
        self.made += 1;
        number % count
    }
}
