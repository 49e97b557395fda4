// A block: a lent list of accesses, done in order up to the first refusal.
ghost use Rattle.std.specs.Prelude.{◌≡◌};
ghost use Rattle.module.specs.BlockLaws.{BlockLaw};
ghost use Rattle.module.specs.Blocks.{block_fault, access_state, access_answer, end_of, block_end};

use crate::Module;
use registers::ModuleFault;
use stage::Stage;

#[derive(Clone, Copy, PartialEq, Eq, Debug)]
pub enum Kind {
    Read,
    Write,
}

#[derive(Clone, Copy, PartialEq, Eq, Debug)]
pub struct Access {
    pub kind: Kind,
    pub offset: u16,
    pub word: u16,
}

// The index of the refused access, and the module's fault whole.
#[derive(Clone, Copy, PartialEq, Eq, Debug)]
pub struct BlockFault {
    pub index: usize,
    pub fault: ModuleFault,
}

impl From<(usize, ModuleFault)> for BlockFault {
    ghost from_gives = { λ f r. r ≡ block_fault f.0 f.1 };

    fn from(refused: (usize, ModuleFault)) -> BlockFault {
        let (index, fault) = refused;
        BlockFault { index, fault }
    }
}

impl<S: Stage> Module<S> {
    // One access: a read puts its word into the record.
    fn access(&mut self, access: Access) -> Result<Access, ModuleFault>
        ensures state { self.new ≡ access_state self.old access }
        ensures answer { result ≡ access_answer self.old access }
    {
        match access.kind {
            Kind::Read => {
                let word = self.read(access.offset)?;
                Ok(Access { word, ..access })
            }
            Kind::Write => {
                self.write(access.offset, access.word)?;
                Ok(access)
            }
        }
    }

    // How many accesses were done; at a refusal, that record and later ones keep their words.
    pub fn block(&mut self, list: &mut [Access]) -> Result<usize, BlockFault>
        ensures end { end_of self.new list.new result ≡ block_end 0 self.old list.old }
        ensures law { BlockLaw self.old list.old (end_of self.new list.new result) result }
    {
        for (index, record) in list.iter_mut().enumerate() {
            *record = self.access(*record).map_err(|fault| (index, fault))?;
        }
        Ok(list.len())
    }
}
