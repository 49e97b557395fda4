ghost use Rattle.std.specs.Prelude.{◌≡◌};
ghost use Rattle.values.specs.Words.{pattern, value_of, words_of, words_of_value, WordsReturn};

use std::num::{f32_from_bits_with_nan, f32_to_bits_with_nan};

// The two words of a value of 32 bits.
#[derive(Clone, Copy, PartialEq, Eq, Debug)]
pub struct Words {
    pub upper: u16,
    pub lower: u16,
}

impl From<u32> for Words {
    ghost from_gives = { λ bits r. r ≡ words_of bits };

    fn from(bits: u32) -> Words {
        Words {
            upper: (bits / 65536) as u16,
            lower: (bits % 65536) as u16,
        }
    }
}

impl From<Words> for u32 {
    ghost from_gives = { λ words r. r ≡ pattern words.upper words.lower };

    fn from(words: Words) -> u32 {
        u32::from(words.upper) * 65536 + u32::from(words.lower)
    }
}

impl From<f32> for Words {
    ghost from_gives = { λ value r. r ≡ words_of_value value };

    fn from(value: f32) -> Words {
        Words::from(f32_to_bits_with_nan(value))
    }
}

impl From<Words> for f32 {
    ghost from_gives = { λ words r. r ≡ value_of words.upper words.lower };

    fn from(words: Words) -> f32 {
        f32_from_bits_with_nan(u32::from(words))
    }
}

// Does nothing: its contract is the theorem that joining and splitting are inverse.
pub fn words_return()
    ensures { WordsReturn }
{}
