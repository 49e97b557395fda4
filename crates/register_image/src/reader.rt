// Reading an image that is lent.
ghost use Rattle.std.specs.Prelude.{◌≡◌};
ghost use Rattle.register_image.specs.Image.{reader_bytes, reader_answer, reader_word, block_told, block_answer};

use crate::check_length;
use registers::{ModuleFault, check_offset};
use stage::MOST_CHANNELS;

// The offset of PlacedChannels.
const PLACED_CHANNELS: u16 = 0x3C;

// Channel k begins at 60 + k × 30, and each has 30 bytes, all hexadecimal.
const FIRST_CHANNEL: usize = 0x60;

const CHANNEL_BYTES: usize = 0x30;

#[derive(Clone, Copy, PartialEq, Eq, Debug)]
pub struct ImageReader<'a> {
    bytes: &'a [u8],
}

// A channel's block as a part of the image, with the offset where it begins.
#[derive(Clone, Copy, PartialEq, Eq, Debug)]
pub struct ChannelBlock<'a> {
    pub offset: u16,
    pub bytes: &'a [u8],
}

impl<'a> ImageReader<'a> {
    pub fn new(bytes: &'a [u8]) -> Result<ImageReader<'a>, ModuleFault>
        ensures { reader_bytes result ≡ reader_answer bytes.now }
    {
        check_length(bytes.len())?;
        Ok(ImageReader { bytes })
    }

    pub fn word(&self, offset: u16) -> Result<u16, ModuleFault>
        ensures { result ≡ reader_word self.now.bytes.now offset }
    {
        check_offset(offset)?;
        check_length(self.bytes.len())?;
        let at = offset as usize;
        Ok(u16::from_be_bytes([self.bytes[at], self.bytes[at + 1]]))
    }

    // The block of a channel that PlacedChannels has: bit k of that word belongs to channel k.
    pub fn channel_block(&self, channel: usize) -> Result<ChannelBlock<'a>, ModuleFault>
        ensures { block_told result ≡ block_answer self.now.bytes.now channel }
    {
        if channel >= MOST_CHANNELS {
            return Err(ModuleFault::NoChannel { channel });
        }
        let placed = self.word(PLACED_CHANNELS)?;
        if (placed >> channel) % 2 == 0 {
            return Err(ModuleFault::NoChannel { channel });
        }
        let begins = FIRST_CHANNEL + channel * CHANNEL_BYTES;
        Ok(ChannelBlock {
            offset: begins as u16,
            bytes: &self.bytes[begins..begins + CHANNEL_BYTES],
        })
    }
}
