// Numbers as text: what a numbering is, and two of them.

#![tactic(auto)]

mod banks;
mod decimals;
mod digits;
mod traits;

pub use banks::Bank;
pub use decimals::Decimal;
pub use digits::{put_decimal, read_decimal};
pub use traits::Numbering;

#[cfg(test)]
mod tests {
    use super::*;

    #[test]
    fn decimal_texts(rt: HostRuntime) {
        let mut out = [b'.'; 12];
        assert_eq!(rt; Decimal.write(4_294_967_295, &mut out), Some(10));
        assert!(rt; out == *b"4294967295..");
        assert_eq!(rt; Decimal.write(0, &mut out), None);
        assert_eq!(rt; Decimal.read(b"4294967296"), None);
    }

    #[test]
    fn bank_texts(rt: HostRuntime) {
        let mut out = [b'.'; 3];
        assert_eq!(rt; Bank.write(5, &mut out), Some(2));
        assert!(rt; out == *b"2A.");
        assert_eq!(rt; Bank.write(4_000_000, &mut out), None);
        assert_eq!(rt; Bank.read(b"1000000D"), Some(4_000_000));
        assert_eq!(rt; Bank.read(b"01A"), None);
    }

    #[test]
    fn first_and_last_bank_texts(rt: HostRuntime) {
        let mut out = [b'.'; 8];
        assert_eq!(rt; Bank.write(1, &mut out), Some(2));
        assert!(rt; out == *b"1A......");
        assert_eq!(rt; Bank.write(4_000_000, &mut out), Some(8));
        assert!(rt; out == *b"1000000D");
        assert_eq!(rt; Bank.read(b"0A"), None);
        assert_eq!(rt; Bank.read(b"1E"), None);
        assert_eq!(rt; Bank.read(b""), None);
    }
}
