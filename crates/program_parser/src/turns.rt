//! What a `for` goes over.

ghost use Rattle.std.specs.Prelude.{◌≡◌, Some};
ghost use Rattle.qasm_grammar.specs.Reader.{read_span, read_chosen, read_turns};
ghost use Rattle.program_parser.specs.Parses.{Takes};
ghost use Rattle.program_parser.specs.Shows.{TurnsIn, loop_kind};

use qasm_ast::{Declared, ExprId, Items, StmtId, StmtKind, TypeRef};
use qasm_lexer::Mark;
use qasm_parser::{Parser, Stop};

/// What a `for` goes over: a range, or the members of a set.
#[derive(Drop)]
pub enum LoopOver {
    Range(ExprId, Option<ExprId>, ExprId),
    Set(Items<ExprId>),
}

/// A range: of three parts the middle one is the step.
#[tactic(auto, unfolding(qasm_grammar::specs::Reader::read_span, qasm_grammar::specs::Reader::read_behind_second))]
fn span(parser: &mut Parser, room: u32) -> Result<LoopOver, Stop>
    ensures { Takes TurnsIn (read_span parser.old.text (Some 64) room) parser.old result parser.new }
{
    let inner = parser.enter(room, Mark::LeftBracket)?;
    let start = parser.expr(inner)?;
    parser.mark(Mark::Colon)?;
    let second = parser.expr(inner)?;
    if parser.sees(Mark::Colon) {
        parser.mark(Mark::Colon)?;
        let third = parser.expr(inner)?;
        parser.mark(Mark::RightBracket)?;
        return Ok(LoopOver::Range(start, Some(second), third));
    }
    parser.mark(Mark::RightBracket)?;
    Ok(LoopOver::Range(start, None, second))
}

/// The members of a set.
#[tactic(auto, unfolding(qasm_grammar::specs::Reader::read_chosen))]
fn chosen(parser: &mut Parser, room: u32) -> Result<LoopOver, Stop>
    ensures { Takes TurnsIn (read_chosen parser.old.text (Some 64) room) parser.old result parser.new }
{
    let inner = parser.enter(room, Mark::LeftBrace)?;
    let found = parser.list(inner, true)?;
    parser.mark(Mark::RightBrace)?;
    Ok(LoopOver::Set(Items { items: found }))
}

/// The statement of a `for` over this.
pub fn loop_kind(ty: TypeRef, name: Declared, over: LoopOver, body: Items<StmtId>) -> StmtKind
    ensures { result ≡ loop_kind ty name over body }
{
    match over {
        LoopOver::Range(start, step, stop) => StmtKind::ForRange {
            ty,
            name,
            start,
            step,
            stop,
            body,
        },
        LoopOver::Set(members) => StmtKind::ForSet {
            ty,
            name,
            members,
            body,
        },
    }
}

/// What a `for` goes over.
pub fn turns(parser: &mut Parser, room: u32) -> Result<LoopOver, Stop>
    ensures { Takes TurnsIn (read_turns parser.old.text (Some 64) room) parser.old result parser.new }
{
    if parser.sees(Mark::LeftBracket) {
        return span(parser, room);
    }
    chosen(parser, room)
}
