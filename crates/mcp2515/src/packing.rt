// A chip by value, put into an image and taken out of it.
ghost use Rattle.std.specs.Prelude.{◌≡◌, ◌+◌, ◌≤◌, take, drop};
ghost use Rattle.std.proofs.lemmas.List.Edits.{sets};
ghost use Rattle.mcp2515.specs.ChipImage.{chip_of, Packed};
ghost use Rattle.image.specs.Image.{image_size};

use crate::Chip;
use image::{Image, SIZE};
use registers::Core;

// By index: copy_from_slice made a load by a third slower.
fn put_part<const N: usize>(image: &mut Image, at: usize, part: &[u8; N])
    requires { at + N ≤ image_size }
    ensures { image.new ≡ sets image.old at part.now }
{
    for i in 0..N {
        image[at + i] = part[i];
    }
}

// The bytes of 00h to 7Fh at their addresses.
fn with_bytes(config: [u8; 48], tx: [u8; 48], rx: [u8; 32]) -> Image
    ensures { (take 48 result ≡ config) × (take 48 (drop 48 result) ≡ tx) × (take 32 (drop 96 result) ≡ rx) }
{
    let mut image = [0u8; SIZE];
    put_part(&mut image, 0, &config);
    put_part(&mut image, 48, &tx);
    put_part(&mut image, 96, &rx);
    image
}

#[tactic(auto, using(crate::proofs::Images::packed_in))]
pub fn pack(chip: Chip) -> Image
    ensures { Packed result chip }
{
    let Chip { core, select } = chip;
    let mut image = with_bytes(core.config, core.tx, core.rx);
    image::control::put_control(&mut image, core.control);
    image::control::put_pins(&mut image, core.pins);
    spi::lines::put_select(&mut image, select);
    image
}

fn part<const N: usize>(image: &Image, at: usize) -> [u8; N]
    requires { at + N ≤ image_size }
    ensures { result ≡ take N (drop at image.now) }
{
    let mut bytes = [0; N];
    bytes.copy_from_slice(&image[at..at + N]);
    bytes
}

pub fn unpack(image: Image) -> Chip
    ensures { result ≡ chip_of image }
{
    let core = Core {
        config: part(&image, 0),
        tx: part(&image, 48),
        rx: part(&image, 96),
        control: image::control::control_of(&image),
        pins: image::control::pins_of(&image),
    };
    Chip {
        core,
        select: spi::lines::select_of(&image),
    }
}
