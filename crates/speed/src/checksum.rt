// A sum that depends on every number added and on their order.
use registers::ModuleFault;
use std::fmt;

#[derive(Clone, Copy, Default, PartialEq, Eq, Debug)]
pub struct Checksum {
    sum: u64,
    sums: u64,
}

impl Checksum {
    pub(crate) fn add(&mut self, number: u32) {
        self.sum = self.sum.wrapping_add(u64::from(number));
        self.sums = self.sums.wrapping_add(self.sum);
    }

    // A refusal counts as its number above every word.
    pub(crate) fn add_answer(&mut self, answer: Result<u32, ModuleFault>) {
        self.add(answer.unwrap_or_else(|fault| fault.number() + 0x10000));
    }
}

impl fmt::Display for Checksum {
    fn fmt<W: fmt::Write>(&self, f: &mut fmt::Formatter<W>) -> fmt::Result {
        write!(f, "{:016X} {:016X}", self.sum, self.sums)
    }
}
