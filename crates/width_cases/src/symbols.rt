// Operators as they are written.

use qasm_ast::{BinaryOp, UnaryOp};

pub fn binary_op(symbol: &str) -> Option<BinaryOp> {
    Some(match symbol {
        "||" => BinaryOp::Or,
        "&&" => BinaryOp::And,
        "|" => BinaryOp::BitOr,
        "^" => BinaryOp::BitXor,
        "&" => BinaryOp::BitAnd,
        "==" => BinaryOp::Equal,
        "!=" => BinaryOp::NotEqual,
        "<" => BinaryOp::Less,
        "<=" => BinaryOp::LessEqual,
        ">" => BinaryOp::Greater,
        ">=" => BinaryOp::GreaterEqual,
        "<<" => BinaryOp::ShiftLeft,
        ">>" => BinaryOp::ShiftRight,
        "+" => BinaryOp::Add,
        "-" => BinaryOp::Subtract,
        "*" => BinaryOp::Multiply,
        "/" => BinaryOp::Divide,
        "%" => BinaryOp::Remainder,
        "**" => BinaryOp::Power,
        _ => return None,
    })
}

pub fn unary_op(symbol: &str) -> Option<UnaryOp> {
    Some(match symbol {
        "~" => UnaryOp::Complement,
        "!" => UnaryOp::Not,
        "-" => UnaryOp::Negate,
        _ => return None,
    })
}
