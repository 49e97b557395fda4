// Writing the image of a module into a buffer that is lent.
ghost use Rattle.std.specs.Prelude.{◌≡◌, ◌+◌, ◌<◌, length, Ok};
ghost use Rattle.register_image.specs.Image.{image_word, with_word, sized, written};
ghost use Rattle.register_image.specs.Laws.{Tells};

use crate::check_length;
use module::Module;
use registers::ModuleFault;
use stage::Stage;

// The word at an offset of the image: 0 where a read refuses, as it does at an empty place.
fn image_word<S: Stage>(module: &Module<S>, offset: u16) -> u16
    ensures { result ≡ image_word «module».now offset }
{
    module.read(offset).unwrap_or(0)
}

// Big end first.
fn put_word(out: &mut [u8], at: usize, word: u16)
    requires { at + 1 < length out.old }
    ensures { out.new ≡ with_word out.old at word }
{
    out[at..at + 2].copy_from_slice(&word.to_be_bytes());
}

// A buffer of another length is left as it is.
pub fn write_image<S: Stage>(module: &Module<S>, out: &mut [u8]) -> Result<(), ModuleFault>
    ensures answer { result ≡ sized (length out.old) (Ok tt) }
    ensures image { out.new ≡ written «module».now out.old }
    ensures back { length out.old ≡ 1024 → Tells «module».now out.new }
{
    check_length(out.len())?;
    for offset in (0..0x400u16).step_by(2) {
        let word = image_word(module, offset);
        put_word(out, offset as usize, word);
    }
    Ok(())
}
