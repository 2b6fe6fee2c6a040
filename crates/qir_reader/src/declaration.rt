//! Labels and declarations.

ghost use Rattle.std.specs.Prelude.{◌≡◌, map};
ghost use Rattle.qq_base.specs.declared.refusal.Span.{Span};
ghost use Rattle.qir_module.specs.Kinds.{kind_of};
ghost use Rattle.qir_module.specs.Grammar as g;
ghost use Rattle.qir_module.specs.Reader as r;
ghost use Rattle.qir_module.specs.Reader.{◌▹◌};
ghost use Rattle.qir_reader.specs.Seen.{Gives, GivesAs, Reads};
ghost use Rattle.qir_reader.specs.Headings.{type_of, types_of, ShowsSignature, ShowsSignatures, ShowsHeading};

use crate::class;
use crate::cursor::Cursor;
use crate::stop::Stop;
use crate::words::Reserved;
use qir_module::{Block, Function, Kind};
use qq_base::{Label, Span};

/// How a type is written.
#[derive(Clone, Copy, Debug)]
enum ValueType {
    Word,
    Truth,
    Pointer,
}

/// A declaration: its function, the place of its name, and whether it is the table's.
#[derive(Clone, Copy, Debug)]
struct Signature {
    function: Function,
    at: Span,
    right: bool,
}

/// Declarations up to the first that is not the table's, with the place of that one.
#[derive(Debug, Drop)]
pub(crate) struct Declarations {
    pub(crate) functions: Vec<Function>,
    pub(crate) wrong: Option<Span>,
}

/// A module up to its declarations.
#[derive(Debug, Drop)]
pub(crate) struct Heading {
    pub(crate) labels: Vec<Label>,
    pub(crate) blocks: Vec<Block>,
    pub(crate) declarations: Declarations,
}

/// Whether an argument of this kind is written so.
fn is_of_kind(written: ValueType, kind: Kind) -> bool
    ensures { result ≡ g.same_type (g.type_of_kind (kind_of kind)) (type_of written) }
{
    match kind {
        Kind::Number => matches!(written, ValueType::Word),
        Kind::Truth => matches!(written, ValueType::Truth),
        Kind::Null | Kind::Qubit | Kind::Result | Kind::Label => {
            matches!(written, ValueType::Pointer)
        }
    }
}

/// Whether arguments of these kinds are written so.
fn are_of_kinds(written: &[ValueType], kinds: &[Kind]) -> bool
    ensures { result ≡ g.same_types (map (λ kind. g.type_of_kind (kind_of kind)) kinds.now) (map type_of written.now) }
{
    if written.len() != kinds.len() {
        return false;
    }
    for index in 0..written.len() {
        if !is_of_kind(written[index], kinds[index]) {
            return false;
        }
    }
    true
}

/// Whether the table has a function so.
fn is_declared_so(function: Function, takes: &[ValueType], gives: bool, irreversible: bool) -> bool
    ensures { (at : Span) → result ≡ g.is_right (record { function = function; at = at; takes = map type_of takes.now; gives = gives; irreversible = irreversible }) }
{
    let Some(row) = function.row() else {
        return false;
    };
    if !are_of_kinds(takes, row.takes) {
        return false;
    }
    if row.gives != gives {
        return false;
    }
    row.irreversible == irreversible
}

impl<'a> Cursor<'a> {
    /// The line of the label of this number.
    #[tactic(auto, unfolding(qir_module::specs::Reader::read_label))]
    fn label(&mut self, number: u32) -> Result<Label, Stop>
        ensures { Gives (r.read_label number) self.old result self.new }
    {
        self.label_number(number)?;
        self.mark(b'=')?;
        self.word(Reserved::Internal)?;
        self.word(Reserved::ConstantWord)?;
        self.mark(b'[')?;
        let stated = self.number()?;
        self.word(Reserved::X)?;
        self.word(Reserved::I8)?;
        self.mark(b']')?;
        self.label_bytes(stated)
    }

    /// The lines of labels.
    #[tactic(auto, unfolding(qir_module::specs::Reader::read_labels))]
    fn labels(&mut self) -> Result<Vec<Label>, Stop>
        ensures { GivesAs (λ found. found.items) r.read_labels self.old result self.new }
    {
        let mut found = Vec::new(self.alloc());
        for number in 0..self.count() {
            if !self.sees(class::CONSTANT) {
                return Ok(found);
            }
            found.push(self.label(number as u32)?)?;
        }
        Ok(found)
    }

    /// The type of an argument.
    #[tactic(auto, unfolding(qir_module::specs::Reader::read_value_type))]
    fn value_type(&mut self) -> Result<ValueType, Stop>
        ensures { GivesAs type_of r.read_value_type self.old result self.new }
    {
        if self.sees_word(Reserved::I64) {
            self.word(Reserved::I64)?;
            return Ok(ValueType::Word);
        }
        if self.sees_word(Reserved::I1) {
            self.word(Reserved::I1)?;
            return Ok(ValueType::Truth);
        }
        self.word(Reserved::Ptr)?;
        Ok(ValueType::Pointer)
    }

    /// A type behind a comma.
    fn further_type(&mut self) -> Result<ValueType, Stop>
        ensures { GivesAs type_of (r.read_comma ▹ r.read_value_type) self.old result self.new }
    {
        self.mark(b',')?;
        let value_type = self.value_type()?;
        Ok(value_type)
    }

    /// Types with commas between them, one at least.
    fn some_types(&mut self) -> Result<Vec<ValueType>, Stop>
        ensures { GivesAs types_of (r.read_separated r.read_value_type) self.old result self.new }
    {
        let mut found = Vec::new(self.alloc());
        found.push(self.value_type()?)?;
        for _ in 0..self.count() {
            if !self.sees(class::COMMA) {
                return Ok(found);
            }
            found.push(self.further_type()?)?;
        }
        Ok(found)
    }

    /// The types of a declaration.
    fn types(&mut self) -> Result<Vec<ValueType>, Stop>
        ensures { GivesAs types_of (r.read_in_parens r.value_type_kinds r.read_value_type) self.old result self.new }
    {
        self.mark(b'(')?;
        let found = if self.sees_type() {
            self.some_types()?
        } else {
            Vec::new(self.alloc())
        };
        self.mark(b')')?;
        Ok(found)
    }

    /// Whether a declared function gives a truth value.
    #[tactic(auto, unfolding(qir_module::specs::Reader::read_result_type))]
    fn result_type(&mut self) -> Result<bool, Stop>
        ensures { Gives r.read_result_type self.old result self.new }
    {
        if self.sees_word(Reserved::Void) {
            self.word(Reserved::Void)?;
            return Ok(false);
        }
        self.word(Reserved::I1)?;
        Ok(true)
    }

    /// Whether the group of functions that cannot be undone stands next, which is then taken.
    #[tactic(auto, unfolding(qir_module::specs::Reader::read_undoing))]
    fn undoing(&mut self) -> Result<bool, Stop>
        ensures { Gives r.read_undoing self.old result self.new }
    {
        if !self.sees(class::group_class(1)) {
            return Ok(false);
        }
        self.group(1)?;
        Ok(true)
    }

    /// A declaration.
    #[tactic(auto, unfolding(qir_module::specs::Reader::read_signature))]
    fn signature(&mut self) -> Result<Signature, Stop>
        ensures { Reads ShowsSignature r.read_signature self.old result self.new }
    {
        self.word(Reserved::Declare)?;
        let gives = self.result_type()?;
        let (function, at) = self.function_name()?;
        let takes = self.types()?;
        let irreversible = self.undoing()?;
        let right = is_declared_so(function, &takes, gives, irreversible);
        Ok(Signature {
            function,
            at,
            right,
        })
    }

    /// Declarations up to the first that is not the table's.
    #[tactic(auto, unfolding(qir_module::specs::Reader::read_signatures))]
    fn signatures(&mut self) -> Result<Declarations, Stop>
        ensures { Reads ShowsSignatures r.read_signatures self.old result self.new }
    {
        let mut functions = Vec::new(self.alloc());
        for _ in 0..self.count() {
            if !self.sees_word(Reserved::Declare) {
                return Ok(Declarations {
                    functions,
                    wrong: None,
                });
            }
            let signature = self.signature()?;
            functions.push(signature.function)?;
            let right = signature.right;
            if !right {
                let wrong = Some(signature.at);
                return Ok(Declarations { functions, wrong });
            }
        }
        Ok(Declarations {
            functions,
            wrong: None,
        })
    }

    /// A module up to its declarations.
    #[tactic(auto, unfolding(qir_module::specs::Reader::read_heading))]
    pub(crate) fn heading(&mut self) -> Result<Heading, Stop>
        ensures { Reads ShowsHeading r.read_heading self.old result self.new }
    {
        let labels = self.labels()?;
        let blocks = self.function()?;
        let declarations = self.signatures()?;
        Ok(Heading {
            labels,
            blocks,
            declarations,
        })
    }
}
