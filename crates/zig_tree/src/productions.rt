// The rules of the grammar, in the order of their numbers, and their groups: one alternative a row.
//
// A row has the next tokens at which it is taken, and then its parts: `T` a token, `C` a token of a
// class, `R` what a rule derives, `G` what a group derives. An optional part is a group whose first
// alternatives are taken where the next token can begin the part, whatever comes later, and whose last
// one is empty. Two alternatives may be taken at one token in a few places alone, marked `Both`: a block
// or a switch that leads a statement may be the whole of it or its first operand, a name that leads one
// may be a label, a dot in the values of a container may lead a name, and `enum` in the tag of a union
// may be a type.
ghost use Rattle.std.specs.Prelude.{◌≡◌, map};
ghost use Rattle.zig_tree.specs.Grammar.{group_rows, rule_rows};
ghost use Rattle.zig_tree.specs.Productions.{alternative};

use crate::grammar::{Group, Part, Production, Rule, TokenClass, When};
use crate::token::TokenKind;

/// A part as a row writes it.
macro_rules! row_part {
    (T $name:ident) => {
        Part::Token(TokenKind::$name)
    };
    (C $name:ident) => {
        Part::OneOf(TokenClass::$name)
    };
    (R $name:ident) => {
        Part::Rule(Rule::$name)
    };
    (G $name:ident) => {
        Part::Group(Group::$name)
    };
}

/// The condition of a row.
macro_rules! row_condition {
    (Always) => {
        When::Always
    };
    (Label) => {
        When::Label
    };
    (Is $name:ident) => {
        When::Is(TokenKind::$name)
    };
    (In $name:ident) => {
        When::In(TokenClass::$name)
    };
    (Both $name:ident) => {
        When::Both(TokenKind::$name)
    };
}

/// Alternatives as rows.
macro_rules! alternatives {
    ($($when:ident $($on:ident)? => $($tag:ident $name:ident),*;)*) => {
        &[$(Production {
            when: row_condition!($when $($on)?),
            parts: &[$(row_part!($tag $name)),*],
        }),*]
    };
}

/// The alternatives of a rule, in the order of preference.
#[tactic(auto, unfolding(crate::specs::Grammar::rule_rows))]
pub fn rule_productions(of: Rule) -> &'static [Production]
    ensures { map alternative result.now ≡ rule_rows of }
{
    match of {
        // 1
        Rule::Root => alternatives! {
            Always => G RootMembers, T End;
        },
        // 2
        Rule::Member => alternatives! {
            In DeclarationStart => R Declaration;
            Is Identifier => R Field, G FieldEnd;
        },
        // 3
        Rule::Field => alternatives! {
            Always => T Identifier, G TypeOption, G ValueOption;
        },
        // 4
        Rule::Declaration => alternatives! {
            Is KeywordComptime => T KeywordComptime, R Block;
            Is KeywordTest => T KeywordTest, G StringOption, R Block;
            Always => G PubOption, G Declared;
        },
        // 5
        Rule::Variable => alternatives! {
            Always => C ConstOrVar, T Identifier, G TypeOption, T Equal, R Or, T Semicolon;
        },
        // 6
        Rule::Prototype => alternatives! {
            Always => T KeywordFn, T Identifier, T LeftParen, G Parameters, T RightParen, G BangOption, R TypeExpression;
        },
        Rule::Function => alternatives! {
            Always => R Prototype, R Block;
        },
        // 7
        Rule::Parameter => alternatives! {
            Always => G ComptimeOption, C NameWord, T Colon, G ParameterType;
        },
        // 8
        Rule::Block => alternatives! {
            Always => T LeftBrace, G Statements, T RightBrace;
        },
        // 9
        Rule::Statement => alternatives! {
            Is KeywordConst => R Variable;
            Is KeywordVar => R Variable;
            Is KeywordComptime => T KeywordComptime, G ComptimeStatement;
            Is KeywordDefer => T KeywordDefer, R Body;
            Is KeywordErrdefer => T KeywordErrdefer, G CaptureOption, R Body;
            Always => R Body;
        },
        // 10
        Rule::Body => alternatives! {
            Is KeywordIf => R IfStatement;
            Is KeywordWhile => R WhileStatement;
            Is KeywordFor => R ForStatement;
            Both Identifier => T Identifier, T Colon, G LabelledStatement;
            Both LeftBrace => R Block;
            Both KeywordSwitch => R Switch;
            Always => R Assignment, T Semicolon;
        },
        // 11
        Rule::IfStatement => alternatives! {
            Always => T KeywordIf, T LeftParen, R Or, T RightParen, G CaptureOption, R Rest;
        },
        Rule::WhileStatement => alternatives! {
            Always => T KeywordWhile, T LeftParen, R Or, T RightParen, G CaptureOption, G ContinueOption, R Rest;
        },
        Rule::ForStatement => alternatives! {
            Always => T KeywordFor, T LeftParen, R ForArgument, G MoreForArguments, T RightParen, T Pipe, R Captures, T Pipe, R Rest;
        },
        // 12
        Rule::Rest => alternatives! {
            Both LeftBrace => R Block, G ElseOption;
            Always => R Assignment, G RestEnd;
        },
        // 13
        Rule::ForArgument => alternatives! {
            Always => R Or, G RangeOption;
        },
        Rule::Captures => alternatives! {
            Always => G PointerOption, R Name, G MoreCaptures;
        },
        Rule::Capture => alternatives! {
            Always => T Pipe, G PointerOption, R Name, T Pipe;
        },
        Rule::Name => alternatives! {
            Always => C NameWord;
        },
        // 14
        Rule::Assignment => alternatives! {
            Is Underscore => T Underscore, T Equal, R Or;
            Always => R Or, G AssignTail;
        },
        // 15
        Rule::Or => alternatives! {
            Always => R And, G OrTail;
        },
        Rule::And => alternatives! {
            Always => R Compare, G AndTail;
        },
        Rule::Compare => alternatives! {
            Always => R Bit, G CompareTail;
        },
        // 16
        Rule::Bit => alternatives! {
            Always => R Shift, G BitTail;
        },
        Rule::Shift => alternatives! {
            Always => R Add, G ShiftTail;
        },
        // 17
        Rule::Add => alternatives! {
            Always => R Multiply, G AddTail;
        },
        Rule::Multiply => alternatives! {
            Always => R Prefix, G MultiplyTail;
        },
        // 18
        Rule::Prefix => alternatives! {
            In PrefixOperator => C PrefixOperator, G MorePrefixes, R Primary;
            Always => R Primary;
        },
        // 19
        Rule::Primary => alternatives! {
            Is KeywordIf => R IfExpression;
            Label => T Identifier, T Colon, G LabelledExpression;
            Is LeftBrace => R Block;
            Is KeywordWhile => R WhileExpression;
            Is KeywordFor => R ForExpression;
            Is KeywordBreak => T KeywordBreak, G BreakLabel, G ExpressionOption;
            Is KeywordContinue => T KeywordContinue, G BreakLabel;
            Is KeywordReturn => T KeywordReturn, G ExpressionOption;
            Is KeywordComptime => T KeywordComptime, R Or;
            In TypeStart => R TypeExpression, G InitializerOption;
        },
        // 20
        Rule::IfExpression => alternatives! {
            Always => T KeywordIf, T LeftParen, R Or, T RightParen, G CaptureOption, R RestExpression;
        },
        Rule::WhileExpression => alternatives! {
            Always => T KeywordWhile, T LeftParen, R Or, T RightParen, G CaptureOption, G ContinueOption, R RestExpression;
        },
        Rule::ForExpression => alternatives! {
            Always => T KeywordFor, T LeftParen, R ForArgument, G MoreForArguments, T RightParen, T Pipe, R Captures, T Pipe, R RestExpression;
        },
        Rule::RestExpression => alternatives! {
            Always => R Or, G ElseExpression;
        },
        // 21
        Rule::TypeExpression => alternatives! {
            In TypePrefixStart => R TypePrefix, G MoreTypePrefixes, R Suffix, G BangTypeOption;
            Always => R Suffix, G BangTypeOption;
        },
        Rule::TypePrefix => alternatives! {
            Is QuestionMark => T QuestionMark;
            In PointerMark => C PointerMark, G ConstOption;
            Is LeftBracket => T LeftBracket, G BracketPrefix;
        },
        // 22
        Rule::Suffix => alternatives! {
            Always => R Atom, G SuffixTail;
        },
        // 23
        Rule::Atom => alternatives! {
            In AtomWord => C AtomWord;
            Is Period => T Period, G DotAtom;
            Is KeywordError => T KeywordError, G ErrorAtom;
            Is Builtin => T Builtin, T LeftParen, G Arguments, T RightParen;
            Is LeftParen => T LeftParen, R Or, T RightParen;
            In ContainerWord => R Container;
            Is KeywordSwitch => R Switch;
        },
        // 24
        Rule::Initializer => alternatives! {
            Always => T LeftBrace, G InitializerBody;
        },
        // 25
        Rule::Container => alternatives! {
            Is KeywordStruct => T KeywordStruct, R ContainerBody;
            Is KeywordEnum => T KeywordEnum, G TagOption, R ContainerBody;
            Is KeywordUnion => T KeywordUnion, T LeftParen, G UnionTag, T RightParen, R ContainerBody;
        },
        Rule::ContainerBody => alternatives! {
            Always => T LeftBrace, G Members, T RightBrace;
        },
        // 26
        Rule::Switch => alternatives! {
            Always => T KeywordSwitch, T LeftParen, R Or, T RightParen, G SwitchBraces;
        },
        Rule::Prong => alternatives! {
            Always => G ProngHead, T EqualAngleRight, G CaptureOption, R Assignment;
        },
        Rule::Item => alternatives! {
            Always => R Or, G ItemRange;
        },
    }
}

/// The alternatives of a group, in the order of preference.
#[tactic(auto, unfolding(crate::specs::Grammar::group_rows))]
pub fn group_productions(of: Group) -> &'static [Production]
    ensures { map alternative result.now ≡ group_rows of }
{
    match of {
        Group::RootMembers => alternatives! {
            In DeclarationStart => R Member, G RootMembers;
            Always =>;
        },
        Group::Members => alternatives! {
            In MemberStart => R Member, G Members;
            Always =>;
        },
        Group::FieldEnd => alternatives! {
            Is Comma => T Comma;
            Is RightBrace =>;
        },
        Group::TypeOption => alternatives! {
            Is Colon => T Colon, R TypeExpression;
            Always =>;
        },
        Group::ValueOption => alternatives! {
            Is Equal => T Equal, R Or;
            Always =>;
        },
        Group::StringOption => alternatives! {
            Is Str => T Str;
            Always =>;
        },
        Group::PubOption => alternatives! {
            Is KeywordPub => T KeywordPub;
            Always =>;
        },
        Group::Declared => alternatives! {
            Is KeywordConst => R Variable;
            Is KeywordVar => R Variable;
            Is KeywordExport => T KeywordExport, R Function;
            Is KeywordFn => R Function;
            Is KeywordExtern => T KeywordExtern, G StringOption, R Prototype, T Semicolon;
        },
        Group::Parameters => alternatives! {
            In ParameterStart => R Parameter, G MoreParameters;
            Always =>;
        },
        Group::MoreParameters => alternatives! {
            Is Comma => T Comma, G Parameters;
            Always =>;
        },
        Group::BangOption => alternatives! {
            Is Bang => T Bang;
            Always =>;
        },
        Group::ComptimeOption => alternatives! {
            Is KeywordComptime => T KeywordComptime;
            Always =>;
        },
        Group::ParameterType => alternatives! {
            Is KeywordAnytype => T KeywordAnytype;
            Always => R TypeExpression;
        },
        Group::Statements => alternatives! {
            In StatementStart => R Statement, G Statements;
            Always =>;
        },
        Group::ComptimeStatement => alternatives! {
            Is KeywordConst => R Variable;
            Is KeywordVar => R Variable;
            Always => R Body;
        },
        Group::LabelledStatement => alternatives! {
            Is KeywordWhile => R WhileStatement;
            Is KeywordFor => R ForStatement;
            Is LeftBrace => R Block;
        },
        Group::ContinueOption => alternatives! {
            Is Colon => T Colon, T LeftParen, R Assignment, T RightParen;
            Always =>;
        },
        Group::MoreForArguments => alternatives! {
            Is Comma => T Comma, G ForArguments;
            Always =>;
        },
        Group::ForArguments => alternatives! {
            In ExpressionStart => R ForArgument, G MoreForArguments;
            Always =>;
        },
        Group::ElseOption => alternatives! {
            Is KeywordElse => T KeywordElse, G CaptureOption, R Body;
            Always =>;
        },
        Group::RestEnd => alternatives! {
            Is Semicolon => T Semicolon;
            Is KeywordElse => T KeywordElse, G CaptureOption, R Body;
        },
        Group::RangeOption => alternatives! {
            Is Ellipsis2 => T Ellipsis2, G ExpressionOption;
            Always =>;
        },
        Group::ExpressionOption => alternatives! {
            In ExpressionStart => R Or;
            Always =>;
        },
        Group::MoreCaptures => alternatives! {
            Is Comma => T Comma, G FurtherCaptures;
            Always =>;
        },
        Group::FurtherCaptures => alternatives! {
            In CaptureStart => G PointerOption, R Name, G MoreCaptures;
            Always =>;
        },
        Group::PointerOption => alternatives! {
            Is Asterisk => T Asterisk;
            Always =>;
        },
        Group::CaptureOption => alternatives! {
            Is Pipe => R Capture;
            Always =>;
        },
        Group::AssignTail => alternatives! {
            In AssignOperator => C AssignOperator, R Or;
            Always =>;
        },
        Group::OrTail => alternatives! {
            Is KeywordOr => T KeywordOr, R And, G OrTail;
            Always =>;
        },
        Group::AndTail => alternatives! {
            Is KeywordAnd => T KeywordAnd, R Compare, G AndTail;
            Always =>;
        },
        Group::CompareTail => alternatives! {
            In CompareOperator => C CompareOperator, R Bit;
            Always =>;
        },
        Group::BitTail => alternatives! {
            In BitOperator => C BitOperator, R Shift, G BitTail;
            Is KeywordCatch => T KeywordCatch, G CaptureOption, R Shift, G BitTail;
            Always =>;
        },
        Group::ShiftTail => alternatives! {
            In ShiftOperator => C ShiftOperator, R Add, G ShiftTail;
            Always =>;
        },
        Group::AddTail => alternatives! {
            In AddOperator => C AddOperator, R Multiply, G AddTail;
            Always =>;
        },
        Group::MultiplyTail => alternatives! {
            In MultiplyOperator => C MultiplyOperator, R Prefix, G MultiplyTail;
            Always =>;
        },
        Group::MorePrefixes => alternatives! {
            In PrefixOperator => C PrefixOperator, G MorePrefixes;
            Always =>;
        },
        Group::LabelledExpression => alternatives! {
            Is LeftBrace => R Block;
            Is KeywordWhile => R WhileExpression;
            Is KeywordFor => R ForExpression;
        },
        Group::BreakLabel => alternatives! {
            Is Colon => T Colon, T Identifier;
            Always =>;
        },
        Group::InitializerOption => alternatives! {
            Is LeftBrace => R Initializer;
            Always =>;
        },
        Group::ElseExpression => alternatives! {
            Is KeywordElse => T KeywordElse, G CaptureOption, R Or;
            Always =>;
        },
        Group::MoreTypePrefixes => alternatives! {
            In TypePrefixStart => R TypePrefix, G MoreTypePrefixes;
            Always =>;
        },
        Group::BangTypeOption => alternatives! {
            Is Bang => T Bang, R TypeExpression;
            Always =>;
        },
        Group::ConstOption => alternatives! {
            Is KeywordConst => T KeywordConst;
            Always =>;
        },
        Group::BracketPrefix => alternatives! {
            Is RightBracket => T RightBracket, G ConstOption;
            Is Underscore => T Underscore, T RightBracket;
            Always => R Or, T RightBracket;
        },
        Group::SuffixTail => alternatives! {
            Is Period => T Period, T Identifier, G SuffixTail;
            Is PeriodAsterisk => T PeriodAsterisk, G SuffixTail;
            Is PeriodQuestionMark => T PeriodQuestionMark, G SuffixTail;
            Is LeftBracket => T LeftBracket, R Or, G RangeOption, T RightBracket, G SuffixTail;
            Is LeftParen => T LeftParen, G Arguments, T RightParen, G SuffixTail;
            Always =>;
        },
        Group::Arguments => alternatives! {
            In ExpressionStart => R Or, G MoreArguments;
            Always =>;
        },
        Group::MoreArguments => alternatives! {
            Is Comma => T Comma, G Arguments;
            Always =>;
        },
        Group::DotAtom => alternatives! {
            Is Identifier => T Identifier;
            Is LeftBrace => R Initializer;
        },
        Group::ErrorAtom => alternatives! {
            Is Period => T Period, T Identifier;
            Is LeftBrace => G ErrorBraces;
        },
        Group::ErrorNames => alternatives! {
            Is Identifier => T Identifier, G MoreErrorNames;
            Always =>;
        },
        Group::MoreErrorNames => alternatives! {
            Is Comma => T Comma, G ErrorNames;
            Always =>;
        },
        Group::InitializerBody => alternatives! {
            Is RightBrace => T RightBrace;
            Both Period => T Period, T Identifier, T Equal, R Or, G MoreFields, T RightBrace;
            Always => R Or, G MoreArguments, T RightBrace;
        },
        Group::MoreFields => alternatives! {
            Is Comma => T Comma, G FurtherFields;
            Always =>;
        },
        Group::FurtherFields => alternatives! {
            Is Period => T Period, T Identifier, T Equal, R Or, G MoreFields;
            Always =>;
        },
        Group::TagOption => alternatives! {
            Is LeftParen => T LeftParen, R Or, T RightParen;
            Always =>;
        },
        Group::UnionTag => alternatives! {
            Both KeywordEnum => T KeywordEnum;
            Always => R Or;
        },
        Group::Prongs => alternatives! {
            In ProngStart => R Prong, G MoreProngs;
            Always =>;
        },
        Group::MoreProngs => alternatives! {
            Is Comma => T Comma, G Prongs;
            Always =>;
        },
        Group::ProngHead => alternatives! {
            Is KeywordElse => T KeywordElse;
            Always => R Item, G MoreItems;
        },
        Group::MoreItems => alternatives! {
            Is Comma => T Comma, G Items;
            Always =>;
        },
        Group::Items => alternatives! {
            In ExpressionStart => R Item, G MoreItems;
            Always =>;
        },
        Group::ItemRange => alternatives! {
            Is Ellipsis3 => T Ellipsis3, R Or;
            Always =>;
        },
        Group::ErrorBraces => alternatives! {
            Always => T LeftBrace, G ErrorNames, T RightBrace;
        },
        Group::SwitchBraces => alternatives! {
            Always => T LeftBrace, G Prongs, T RightBrace;
        },
    }
}
