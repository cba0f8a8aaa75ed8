// Operators by what they are written as.
ghost use Rattle.std.specs.Prelude.{◌≡◌};
ghost use Rattle.zir_astgen.specs.Operators as spec;

use zig_tree::TokenKind;
use zir_form::{BinaryOperator, UnaryOperator};

/// The operator between two operands; also that of an assignment that it leads.
#[tactic(auto, unfolding(crate::specs::Operators::binary_of))]
pub fn binary_of(kind: TokenKind) -> Option<BinaryOperator>
    ensures { result ≡ spec.binary_of kind }
{
    match kind {
        TokenKind::Plus | TokenKind::PlusEqual => Some(BinaryOperator::Add),
        TokenKind::PlusPercent | TokenKind::PlusPercentEqual => Some(BinaryOperator::AddWrap),
        TokenKind::PlusPipe | TokenKind::PlusPipeEqual => Some(BinaryOperator::AddSaturate),
        TokenKind::Minus | TokenKind::MinusEqual => Some(BinaryOperator::Subtract),
        TokenKind::MinusPercent | TokenKind::MinusPercentEqual => {
            Some(BinaryOperator::SubtractWrap)
        }
        TokenKind::MinusPipe | TokenKind::MinusPipeEqual => {
            Some(BinaryOperator::SubtractSaturate)
        }
        TokenKind::Asterisk | TokenKind::AsteriskEqual => Some(BinaryOperator::Multiply),
        TokenKind::AsteriskPercent | TokenKind::AsteriskPercentEqual => {
            Some(BinaryOperator::MultiplyWrap)
        }
        TokenKind::AsteriskPipe | TokenKind::AsteriskPipeEqual => {
            Some(BinaryOperator::MultiplySaturate)
        }
        TokenKind::Slash | TokenKind::SlashEqual => Some(BinaryOperator::Divide),
        TokenKind::Percent | TokenKind::PercentEqual => Some(BinaryOperator::Remainder),
        TokenKind::PlusPlus => Some(BinaryOperator::Concatenate),
        TokenKind::AsteriskAsterisk => Some(BinaryOperator::Repeat),
        TokenKind::PipePipe => Some(BinaryOperator::MergeErrors),
        TokenKind::AngleLeftAngleLeft | TokenKind::AngleLeftAngleLeftEqual => {
            Some(BinaryOperator::ShiftLeft)
        }
        TokenKind::AngleLeftAngleLeftPipe | TokenKind::AngleLeftAngleLeftPipeEqual => {
            Some(BinaryOperator::ShiftLeftSaturate)
        }
        TokenKind::AngleRightAngleRight | TokenKind::AngleRightAngleRightEqual => {
            Some(BinaryOperator::ShiftRight)
        }
        TokenKind::Ampersand | TokenKind::AmpersandEqual => Some(BinaryOperator::BitAnd),
        TokenKind::Caret | TokenKind::CaretEqual => Some(BinaryOperator::BitXor),
        TokenKind::Pipe | TokenKind::PipeEqual => Some(BinaryOperator::BitOr),
        TokenKind::EqualEqual => Some(BinaryOperator::Equal),
        TokenKind::BangEqual => Some(BinaryOperator::NotEqual),
        TokenKind::AngleLeft => Some(BinaryOperator::Less),
        TokenKind::AngleLeftEqual => Some(BinaryOperator::LessOrEqual),
        TokenKind::AngleRight => Some(BinaryOperator::Greater),
        TokenKind::AngleRightEqual => Some(BinaryOperator::GreaterOrEqual),
        _ => None,
    }
}

/// The operator before an operand.
#[tactic(auto, unfolding(crate::specs::Operators::unary_of))]
pub fn unary_of(kind: TokenKind) -> Option<UnaryOperator>
    ensures { result ≡ spec.unary_of kind }
{
    match kind {
        TokenKind::Bang => Some(UnaryOperator::Not),
        TokenKind::Minus => Some(UnaryOperator::Negate),
        TokenKind::MinusPercent => Some(UnaryOperator::NegateWrap),
        TokenKind::Tilde => Some(UnaryOperator::Complement),
        _ => None,
    }
}
