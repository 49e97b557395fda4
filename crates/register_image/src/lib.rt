// The image of a module: its words at offsets 0000 to 03FF in order, big end first, in 1,024 bytes.
#![tactic(auto)]

ghost use Rattle.std.specs.Prelude.{◌≡◌, Ok};
ghost use Rattle.register_image.specs.Image.{sized};
ghost use Rattle.register_image.specs.Laws.{ReadsBack};

use registers::ModuleFault;

pub mod reader;
pub mod writer;

pub use reader::{ChannelBlock, ImageReader};
pub use writer::write_image;

pub const IMAGE_BYTES: usize = 1024;

// Refused with 8, after what the offset or the channel alone refuses: in bytes that are no image there is no word to look at.
fn check_length(bytes: usize) -> Result<(), ModuleFault>
    ensures { result ≡ sized bytes (Ok tt) }
{
    if bytes == IMAGE_BYTES {
        Ok(())
    } else {
        Err(ModuleFault::ImageLength { bytes })
    }
}

// For every state of a module, each word of its image reads as the module answers it, and the image has the blocks of its channels.
pub fn image_reads_back()
    ensures { ReadsBack }
{}
