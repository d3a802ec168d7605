ghost use Rattle.std.specs.Prelude.{decimal};
ghost use Rattle.numbering.specs.Numeral.{numeral};
ghost use Rattle.numbering.specs.DecimalLaws.{short, printed, back, only};

use crate::digits::{put_decimal, read_decimal};
use crate::traits::Numbering;

// Each number in base ten, without leading zeros.
#[derive(Clone, Copy, Debug, PartialEq)]
pub struct Decimal;

impl Numbering for Decimal {
    const GREATEST: u32 = 4_294_967_295;

    const LONGEST: usize = 10;

    ghost GREATEST = { 4294967295 };

    ghost LONGEST = { 10 };

    ghost text = { decimal };

    ghost reading = { numeral 4294967295 };

    ghost short = { short };

    ghost printed = { printed };

    ghost back = { back };

    ghost only = { only };

    fn write(&self, n: u32, out: &mut [u8]) -> Option<usize> {
        if n == 0 {
            return None;
        }
        put_decimal(n, out)
    }

    fn read(&self, bytes: &[u8]) -> Option<u32> {
        read_decimal(bytes, Self::GREATEST)
    }
}
