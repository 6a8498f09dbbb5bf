// The generator of tables.
ghost use Rattle.std.specs.Prelude.{◌≡◌, ◌+◌, ◌*◌, ◌/◌, ◌%◌, ◌^◌, ◌<◌, ◌≤◌, ℕ};
ghost use Rattle.either.specs.declared.Either.TheVariants.{Left, Right};
ghost use Rattle.prefix_text.specs.Generator.{after_steps, drawn, first_generated, narrow_entry, next, wide_address, wide_entry};
ghost use Rattle.prefix_text.specs.Forms.{Fits};

use crate::lines::Entry;
use either::{Left, Right};

/// The factor of the linear congruence.
const FACTOR: u128 = 6364136223846793005;

/// What the linear congruence adds.
const INCREMENT: u128 = 1442695040888963407;

/// Generates entries of both families from a seed.
#[derive(Clone, Copy)]
pub struct Generator {
    /// What all further draws follow from: the seed at first.
    pub state: u64,
}

impl Generator {
    /// The generator that begins with this seed.
    pub fn new(seed: u64) -> Generator
        ensures { result.state ≡ seed }
    {
        Generator { state: seed }
    }

    /// The next entry.
    pub fn next_entry(&mut self) -> Entry
        ensures entry { result ≡ (first_generated self.old.state).0 }
        ensures state { self.new.state ≡ (first_generated self.old.state).1 }
        ensures fits { Fits result.0 }
    {
        let kind = self.draw();
        let half = kind / 2;
        if kind % 2 == 0 {
            self.narrow_entry(8 + (half % 17) as u8)
        } else {
            self.wide_entry(16 + (half % 33) as u8)
        }
    }

    fn narrow_entry(&mut self, length: u8) -> Entry
        ensures entry { result ≡ (Left (drawn (after_steps 1 self.old.state), length), drawn (after_steps 2 self.old.state) % 8) }
        ensures state { self.new.state ≡ after_steps 2 self.old.state }
        ensures fits { length ≤ 32 → Fits result.0 }
    {
        let address = self.draw();
        let value = self.draw() % 8;
        (Left((address, length)), value)
    }

    fn wide_entry(&mut self, length: u8) -> Entry
        ensures entry { result ≡ (Right (wide_address self.old.state, length), drawn (after_steps 5 self.old.state) % 8) }
        ensures state { self.new.state ≡ after_steps 5 self.old.state }
        ensures fits { length ≤ 128 → Fits result.0 }
    {
        let address = self.draw_address();
        let value = self.draw() % 8;
        (Right((address, length)), value)
    }

    /// An address of 128 bits: four draws, the most significant first.
    fn draw_address(&mut self) -> u128
        ensures address { result ≡ wide_address self.old.state }
        ensures state { self.new.state ≡ after_steps 4 self.old.state }
    {
        let mut address = u128::from(self.draw());
        address = address * (1 << 32) + u128::from(self.draw());
        address = address * (1 << 32) + u128::from(self.draw());
        address * (1 << 32) + u128::from(self.draw())
    }

    /// A draw of 32 bits.
    #[tactic(auto, unfolding(crate::specs::Generator::next))]
    fn draw(&mut self) -> u32
        ensures value { result ≡ drawn self.new.state }
        ensures state { self.new.state ≡ next self.old.state }
    {
        let next = (u128::from(self.state) * FACTOR + INCREMENT) % (1 << 64);
        self.state = next as u64;
        (self.state >> 32) as u32
    }
}
