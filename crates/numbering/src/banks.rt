ghost use Rattle.numbering.specs.Banked.{banked, banked_reading};
ghost use Rattle.numbering.specs.BankLaws.{short, printed, back, only};

use crate::digits::{put_decimal, read_decimal};
use crate::traits::Numbering;

// Banks of four, as a pedal board has them: the bank in base ten, then A, B, C or D.
#[derive(Clone, Copy, Debug, PartialEq)]
pub struct Bank;

impl Numbering for Bank {
    const GREATEST: u32 = 4_000_000;

    const LONGEST: usize = 8;

    ghost GREATEST = { 4000000 };

    ghost LONGEST = { 8 };

    ghost text = { banked };

    ghost reading = { banked_reading };

    ghost short = { short };

    ghost printed = { printed };

    ghost back = { back };

    ghost only = { only };

    fn write(&self, n: u32, out: &mut [u8]) -> Option<usize> {
        if n == 0 || n > Self::GREATEST {
            return None;
        }
        let last = out.len().checked_sub(1)?;
        let len = put_decimal((n - 1) / 4 + 1, &mut out[..last])?;
        out[len] = b'A' + ((n - 1) % 4) as u8;
        Some(len + 1)
    }

    fn read(&self, bytes: &[u8]) -> Option<u32> {
        let [bank @ .., letter @ b'A'..=b'D'] = bytes else {
            return None;
        };
        let bank = read_decimal(bank, Self::GREATEST / 4)?;
        Some((bank - 1) * 4 + u32::from(*letter - b'A') + 1)
    }
}
