//! Bytes as binary digits.

/// Digits that are read one after the other, from the most significant one of the first byte on. Behind the last are zeros.
#[derive(Drop)]
pub(crate) struct Digits<'a> {
    bytes: &'a [u8],
    at: usize,
}

impl Digits<'_> {
    pub(crate) fn new(bytes: &[u8]) -> Digits<'_> {
        Digits { bytes, at: 0 }
    }

    fn next(&mut self) -> u64 {
        let byte = match self.bytes.get(self.at / 8) {
            Some(byte) => *byte,
            None => 0,
        };
        let digit = byte >> (7 - self.at % 8) & 1;
        self.at = self.at.saturating_add(1);
        u64::from(digit)
    }

    /// The number of the next digits.
    pub(crate) fn number(&mut self, count: u8) -> u64 {
        let mut number = 0;
        for _ in 0..count {
            number = number << 1 | self.next();
        }
        number
    }

    /// The next numbers, and zeros behind them.
    pub(crate) fn numbers(&mut self, len: u8, count: u8) -> [u64; 16] {
        let mut numbers = [0; 16];
        for number in numbers.iter_mut().take(usize::from(len)) {
            *number = self.number(count);
        }
        numbers
    }

    /// The number of the digits that are left of a word.
    pub(crate) fn rest_of_word(&mut self) -> u64 {
        self.number(((64 - self.at % 64) % 64) as u8)
    }
}
