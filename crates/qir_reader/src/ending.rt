//! Attributes and flags.

ghost use Rattle.std.specs.Prelude.{◌<◌};
ghost use Rattle.qir_module.specs.Words as w;
ghost use Rattle.qir_module.specs.Reader as r;
ghost use Rattle.qir_reader.specs.Seen.{Gives, GivesAs, Takes, quoted_of, reserved_of};
ghost use Rattle.qir_reader.specs.Parts.{read_flag_front, attributes_of, flags_of};

use crate::class;
use crate::cursor::Cursor;
use crate::stop::Stop;
use crate::words::{Quoted, Reserved};
use qir_module::Profile;

/// The attributes of the function that a module defines.
#[derive(Clone, Copy, Debug)]
pub(crate) struct Attributes {
    pub(crate) profile: Profile,
    pub(crate) qubits: u32,
    pub(crate) results: u32,
}

/// The flags of a module.
#[derive(Clone, Copy, Debug)]
pub(crate) struct Flags {
    pub(crate) major: u32,
    pub(crate) minor: u32,
    pub(crate) dynamic_qubits: bool,
    pub(crate) dynamic_results: bool,
}

impl<'a> Cursor<'a> {
    /// A key and its number.
    fn keyed_numeral(&mut self, key: Quoted) -> Result<u32, Stop>
        ensures { Gives (r.read_keyed (quoted_of key) r.read_numeral) self.old result self.new }
    {
        self.quoted(key)?;
        self.mark(b'=')?;
        let number = self.numeral()?;
        Ok(number)
    }

    /// The profile behind its key.
    fn keyed_profile(&mut self) -> Result<Profile, Stop>
        ensures { Gives (r.read_keyed w.Profiles r.read_profile) self.old result self.new }
    {
        self.quoted(Quoted::Profiles)?;
        self.mark(b'=')?;
        let profile = self.profile()?;
        Ok(profile)
    }

    /// How outputs are labeled.
    fn labeling_schema(&mut self) -> Result<(), Stop>
        ensures { Takes (r.read_keyed w.LabelingSchema (r.read_quoted w.Labeled)) self.old result self.new }
    {
        self.quoted(Quoted::LabelingSchema)?;
        self.mark(b'=')?;
        self.quoted(Quoted::Labeled)
    }

    /// The first group of attributes.
    #[tactic(auto, unfolding(qir_module::specs::Reader::read_attributes))]
    pub(crate) fn attributes(&mut self) -> Result<Attributes, Stop>
        ensures { GivesAs attributes_of r.read_attributes self.old result self.new }
    {
        self.word(Reserved::Attributes)?;
        self.group_number(0)?;
        self.mark(b'=')?;
        self.mark(b'{')?;
        self.quoted(Quoted::EntryPoint)?;
        let profile = self.keyed_profile()?;
        self.labeling_schema()?;
        let qubits = self.keyed_numeral(Quoted::RequiredQubits)?;
        let results = self.keyed_numeral(Quoted::RequiredResults)?;
        self.mark(b'}')?;
        Ok(Attributes {
            profile,
            qubits,
            results,
        })
    }

    /// The second group of attributes.
    #[tactic(auto, unfolding(qir_module::specs::Reader::read_second_attributes))]
    pub(crate) fn second_attributes(&mut self) -> Result<(), Stop>
        ensures { Takes r.read_second_attributes self.old result self.new }
    {
        self.word(Reserved::Attributes)?;
        self.group_number(1)?;
        self.mark(b'=')?;
        self.mark(b'{')?;
        self.quoted(Quoted::Irreversible)?;
        self.mark(b'}')
    }

    /// The list of flags.
    #[tactic(auto, unfolding(qir_module::specs::Reader::read_flag_list))]
    fn flag_list(&mut self) -> Result<(), Stop>
        ensures { Takes r.read_flag_list self.old result self.new }
    {
        self.sign(class::FLAGS)?;
        self.mark(b'=')?;
        self.mark(b'!')?;
        self.mark(b'{')?;
        self.flag(0)?;
        self.mark(b',')?;
        self.flag(1)?;
        self.mark(b',')?;
        self.flag(2)?;
        self.mark(b',')?;
        self.flag(3)?;
        self.mark(b'}')
    }

    /// A flag line up to its value: its number, how such flags behave where modules are linked, its name and
    /// the type of its value.
    fn flag_front(
        &mut self,
        number: u32,
        behaviour: u16,
        name: Quoted,
        value: Reserved,
    ) -> Result<(), Stop>
        requires { 0 < behaviour }
        ensures { Takes (read_flag_front number behaviour (quoted_of name) (reserved_of value)) self.old result self.new }
    {
        self.flag_number(number)?;
        self.mark(b'=')?;
        self.mark(b'!')?;
        self.mark(b'{')?;
        self.word(Reserved::I32)?;
        self.sign(behaviour)?;
        self.mark(b',')?;
        self.flag_text(name)?;
        self.mark(b',')?;
        self.word(value)
    }

    /// A flag line of a number.
    #[tactic(auto, unfolding(qir_module::specs::Reader::read_flag_line))]
    fn version_flag(&mut self, number: u32, behaviour: u16, name: Quoted) -> Result<u32, Stop>
        requires { 0 < behaviour }
        ensures { Gives (r.read_flag_line number (r.read_sign behaviour) (quoted_of name) w.I32 r.read_small_number) self.old result self.new }
    {
        self.flag_front(number, behaviour, name, Reserved::I32)?;
        let value = self.small_number()?;
        self.mark(b'}')?;
        Ok(value)
    }

    /// A flag line of a truth value.
    #[tactic(auto, unfolding(qir_module::specs::Reader::read_flag_line))]
    fn truth_flag(&mut self, number: u32, name: Quoted) -> Result<bool, Stop>
        ensures { Gives (r.read_flag_line number r.read_number_one (quoted_of name) w.I1 r.read_truth) self.old result self.new }
    {
        self.flag_front(number, class::ONE, name, Reserved::I1)?;
        let value = self.truth()?;
        self.mark(b'}')?;
        Ok(value)
    }

    /// The list of flags, and their lines.
    #[tactic(auto, unfolding(qir_module::specs::Reader::read_flags))]
    pub(crate) fn flags(&mut self) -> Result<Flags, Stop>
        ensures { GivesAs flags_of r.read_flags self.old result self.new }
    {
        self.flag_list()?;
        let major = self.version_flag(0, class::ONE, Quoted::MajorVersion)?;
        let minor = self.version_flag(1, class::SEVEN, Quoted::MinorVersion)?;
        let dynamic_qubits = self.truth_flag(2, Quoted::DynamicQubits)?;
        let dynamic_results = self.truth_flag(3, Quoted::DynamicResults)?;
        Ok(Flags {
            major,
            minor,
            dynamic_qubits,
            dynamic_results,
        })
    }
}
