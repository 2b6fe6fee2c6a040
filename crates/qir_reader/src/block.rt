//! Blocks.

ghost use Rattle.std.specs.Prelude.{◌≡◌};
ghost use Rattle.grammar_parts.specs.Reading.{heads};
ghost use Rattle.grammar_parts.specs.Kinds.{among};
ghost use Rattle.qir_module.specs.Words.{kind};
ghost use Rattle.qir_module.specs.Reader as r;
ghost use Rattle.qir_reader.specs.Seen.{Gives, GivesAs, Reads};
ghost use Rattle.qir_reader.specs.Parts.{item_of, ShowsItems, AddsItem, read_some_blocks};

use crate::class;
use crate::cursor::Cursor;
use crate::stop::Stop;
use crate::words::Reserved;
use qir_module::{Block, Instr, Last, Phi, Sequence};

/// A phi or an instruction.
#[derive(Debug, Drop)]
enum Item {
    Phi(Phi),
    Instr(Instr),
}

/// The phis and the instructions of a block.
#[derive(Debug, Drop)]
struct Items {
    phis: Vec<Phi>,
    body: Vec<Instr>,
}

impl Items {
    /// Puts an item behind those that are there.
    fn add(&mut self, item: Item) -> Result<(), Stop>
        ensures { AddsItem self.old item result self.new }
    {
        match item {
            Item::Phi(phi) => self.phis.push(phi)?,
            Item::Instr(instruction) => self.body.push(instruction)?,
        }
        Ok(())
    }
}

impl<'a> Cursor<'a> {
    /// What stands behind a register and its `=`; a phi only where it may stand.
    #[tactic(auto, unfolding(qir_module::specs::Reader::read_assigned))]
    fn assigned(&mut self, phis: bool, register: u32) -> Result<Item, Stop>
        ensures { GivesAs item_of (r.read_assigned phis register) self.old result self.new }
    {
        if self.sees_instruction() {
            return Ok(Item::Instr(self.instruction(register)?));
        }
        if !phis {
            return Err(self.stray());
        }
        if self.sees_word(Reserved::Phi) {
            return Ok(Item::Phi(self.phi(register)?));
        }
        Err(self.stray())
    }

    /// A phi, where it may stand, or an instruction.
    #[tactic(auto, unfolding(qir_module::specs::Reader::read_item))]
    fn item(&mut self, phis: bool) -> Result<Item, Stop>
        ensures { GivesAs item_of (r.read_item phis) self.old result self.new }
    {
        if self.sees(class::REGISTER) {
            let register = self.register()?;
            self.mark(b'=')?;
            return self.assigned(phis, register);
        }
        if self.sees_word(Reserved::Call) {
            return Ok(Item::Instr(self.call(None)?));
        }
        Err(self.stray())
    }

    /// Whether a word stands next that ends a block, or what no item begins with.
    fn sees_item(&self) -> bool
        ensures { result ≡ heads (among kind r.item_kinds) self.now }
    {
        self.sees(class::REGISTER)
            || self.sees_word(Reserved::Call)
            || matches!(self.stray(), Stop::Value)
    }

    /// The phis and instructions of a block, phis in front.
    #[tactic(auto, unfolding(qir_module::specs::Reader::read_items))]
    fn items(&mut self) -> Result<Items, Stop>
        ensures { Reads ShowsItems r.read_items self.old result self.new }
    {
        let mut found = Items {
            phis: Vec::new(self.alloc()),
            body: Vec::new(self.alloc()),
        };
        for _ in 0..self.count() {
            if !self.sees_item() {
                return Ok(found);
            }
            let item = self.item(found.body.as_slice().is_empty())?;
            found.add(item)?;
        }
        Ok(found)
    }

    /// `label` and the target of a branch.
    fn label_target(&mut self) -> Result<u32, Stop>
        ensures { Gives r.read_label_target self.old result self.new }
    {
        self.word(Reserved::Label)?;
        self.target()
    }

    /// A branch to one of two blocks.
    #[tactic(auto, unfolding(qir_module::specs::Reader::read_branch))]
    fn branch(&mut self) -> Result<Last, Stop>
        ensures { Gives r.read_branch self.old result self.new }
    {
        self.word(Reserved::I1)?;
        let test = self.operand(true)?;
        self.mark(b',')?;
        let yes = self.label_target()?;
        self.mark(b',')?;
        let no = self.label_target()?;
        Ok(Last::Branch(test, yes, no))
    }

    /// The last instruction of a block.
    #[tactic(auto, unfolding(qir_module::specs::Reader::read_last))]
    fn last(&mut self) -> Result<Last, Stop>
        ensures { Gives r.read_last self.old result self.new }
    {
        if self.sees_word(Reserved::Br) {
            self.word(Reserved::Br)?;
            if self.sees_word(Reserved::Label) {
                return Ok(Last::Jump(self.label_target()?));
            }
            return self.branch();
        }
        self.word(Reserved::Ret)?;
        self.word(Reserved::I64)?;
        Ok(Last::Return(self.number()?))
    }

    /// A block.
    #[tactic(auto, unfolding(qir_module::specs::Reader::read_block))]
    fn block(&mut self) -> Result<Block, Stop>
        ensures { Gives r.read_block self.old result self.new }
    {
        let name = self.block_name()?;
        let found = self.items()?;
        let last = self.last()?;
        Ok(Block {
            name,
            phis: Sequence { items: found.phis },
            body: Sequence { items: found.body },
            last,
        })
    }

    /// Blocks, one at least.
    fn some_blocks(&mut self) -> Result<Vec<Block>, Stop>
        ensures { GivesAs (λ found. found.items) read_some_blocks self.old result self.new }
    {
        let mut found = Vec::new(self.alloc());
        found.push(self.block()?)?;
        for _ in 0..self.count() {
            if !self.sees(class::BLOCK) {
                return Ok(found);
            }
            found.push(self.block()?)?;
        }
        Ok(found)
    }

    /// Blocks up to a closing brace, one at least.
    #[tactic(auto, unfolding(qir_module::specs::Reader::read_blocks))]
    fn blocks(&mut self) -> Result<Vec<Block>, Stop>
        ensures { GivesAs (λ found. found.items) r.read_blocks self.old result self.new }
    {
        let found = self.some_blocks()?;
        self.mark(b'}')?;
        Ok(found)
    }

    /// The function that a module defines, by its blocks.
    #[tactic(auto, unfolding(qir_module::specs::Reader::read_function))]
    pub(crate) fn function(&mut self) -> Result<Vec<Block>, Stop>
        ensures { GivesAs (λ found. found.items) r.read_function self.old result self.new }
    {
        self.word(Reserved::Define)?;
        self.word(Reserved::I64)?;
        self.sign(class::MAIN)?;
        self.mark(b'(')?;
        self.mark(b')')?;
        self.group(0)?;
        self.mark(b'{')?;
        self.blocks()
    }
}
