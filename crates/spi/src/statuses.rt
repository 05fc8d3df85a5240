// READ STATUS and RX STATUS.
ghost use Rattle.std.specs.Prelude.{◌≡◌, ◌%◌};
ghost use Rattle.image.specs.Image.{control_of, core_of};
ghost use Rattle.spi.specs.Instructions.{status_of, described, shown_hit, rx_status_of};

use image::{CANINTF, Image, RXB0CTRL, RXB1CTRL};
use registers::{Control, IDE, RX1IF, RXRTR, TX0IF, TX1IF, TX2IF, TXREQ, flag};

// Where SIDL of RXB0 and RXB1 lies.
const RXB0SIDL: usize = 98;

const RXB1SIDL: usize = 114;

#[tactic(auto, unfolding(crate::specs::Instructions::status_of))]
fn status_of(control: Control) -> u8
    ensures { result ≡ status_of control }
{
    let flags = control.flags.canintf;
    let txb0 = control.tx.txb0;
    let txb1 = control.tx.txb1;
    let txb2 = control.tx.txb2;
    let third = flag(txb2 / TXREQ % 2 == 1, 64) | flag(flags / TX2IF % 2 == 1, 128);
    let second = flag(txb1 / TXREQ % 2 == 1, 16) | (flag(flags / TX1IF % 2 == 1, 32) | third);
    let first = flag(txb0 / TXREQ % 2 == 1, 4) | (flag(flags / TX0IF % 2 == 1, 8) | second);
    flag(flags % 2 == 1, 1) | (flag(flags / RX1IF % 2 == 1, 2) | first)
}

pub fn status(image: &Image) -> u8
    ensures { result ≡ status_of (control_of image.now) }
{
    status_of(image::control::control_of(image))
}

fn describe(ctrl: u8, sidl: u8, filter: u8) -> u8
    ensures { result ≡ described ctrl sidl filter }
{
    flag(sidl / IDE % 2 == 1, 16) | (flag(ctrl / RXRTR % 2 == 1, 8) | filter)
}

fn shown_hit(ctrl: u8) -> u8
    ensures { result ≡ shown_hit (ctrl % 8) }
{
    let hit = ctrl % 8;
    if hit < 2 { hit + 6 } else { hit }
}

pub fn rx_status(image: &Image) -> u8
    ensures { result ≡ rx_status_of (core_of image.now) }
{
    let flags = image[CANINTF];
    let rxb0 = image[RXB0CTRL];
    let rxb1 = image[RXB1CTRL];
    let full0 = flags % 2 == 1;
    let full1 = flags / RX1IF % 2 == 1;
    let second = describe(rxb1, image[RXB1SIDL], shown_hit(rxb1));
    let first = describe(rxb0, image[RXB0SIDL], rxb0 % 2);
    let shown = bits::choose(full0, first, bits::choose(full1, second, 0));
    flag(full1, 128) | (flag(full0, 64) | shown)
}
