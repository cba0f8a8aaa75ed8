// The labels of forms, and the lines below them.
ghost use Rattle.std.specs.Prelude.{◌≡◌, ◌++◌, OnOk};
ghost use Rattle.zir_same.specs.Labels as spec;

use crate::words::{
    binary_number, builtin_number, high, is_some_word, low, primitive_number, primitive_width,
    put_bytes, put_names, put_words, some_word, unary_number,
};
use std::alloc::AllocError;
use zir_form::Form;

/// The label of the trees of a form behind words: what they are but for the trees below them.
#[tactic(auto, unfolding(crate::specs::Labels::label, zir_form::specs::Lines::over_cores))]
pub fn put_label(form: &Form, words: &mut Vec<u64>) -> Result<(), AllocError>
    ensures { OnOk result (words.new.items ≡ words.old.items ++ spec.label_of form.now) }
{
    match form {
        Form::Missing => put_words(words, &[0]),
        Form::Absent => put_words(words, &[1]),
        Form::Local { place, number } => put_words(
            words,
            &[2, u64::from(*place), u64::from(*number)],
        ),
        Form::Captured { place, number } => put_words(
            words,
            &[3, u64::from(*place), u64::from(*number)],
        ),
        Form::Declared { place, depth, name } => {
            put_words(words, &[4, u64::from(*place), u64::from(*depth)])?;
            put_bytes(words, name.as_slice())
        }
        Form::Primitive { place, primitive } => put_words(
            words,
            &[
                5,
                u64::from(*place),
                u64::from(primitive_number(*primitive)),
                u64::from(primitive_width(*primitive)),
            ],
        ),
        Form::Integer { place, value } => put_words(
            words,
            &[6, u64::from(*place), low(*value), high(*value)],
        ),
        Form::Text { place, bytes } => {
            put_words(words, &[7, u64::from(*place)])?;
            put_bytes(words, bytes.as_slice())
        }
        Form::Lines { place, bytes } => {
            put_words(words, &[8, u64::from(*place)])?;
            put_bytes(words, bytes.as_slice())
        }
        Form::Unreachable { place } => put_words(words, &[9, u64::from(*place)]),
        Form::EnumLiteral { place, name } => {
            put_words(words, &[10, u64::from(*place)])?;
            put_bytes(words, name.as_slice())
        }
        Form::ErrorValue { place, name } => {
            put_words(words, &[11, u64::from(*place)])?;
            put_bytes(words, name.as_slice())
        }
        Form::ErrorSet { place, names } => {
            put_words(words, &[12, u64::from(*place)])?;
            put_names(words, names.as_slice())
        }
        Form::Container {
            place,
            ordinal,
            captures: _,
        } => put_words(words, &[13, u64::from(*place), u64::from(*ordinal)]),
        Form::Builtin {
            place,
            builtin,
            arguments: _,
        } => put_words(
            words,
            &[14, u64::from(*place), u64::from(builtin_number(*builtin))],
        ),
        Form::Import { place, path } => {
            put_words(words, &[15, u64::from(*place)])?;
            put_bytes(words, path.as_slice())
        }
        Form::Grouped { place, inner: _ } => put_words(words, &[16, u64::from(*place)]),
        Form::Member {
            place,
            name_place,
            object: _,
            name,
        } => {
            put_words(words, &[17, u64::from(*place), u64::from(*name_place)])?;
            put_bytes(words, name.as_slice())
        }
        Form::Dereference { place, object: _ } => put_words(words, &[18, u64::from(*place)]),
        Form::Unwrap { place, object: _ } => put_words(words, &[19, u64::from(*place)]),
        Form::Index {
            place,
            object: _,
            index: _,
        } => put_words(words, &[20, u64::from(*place)]),
        Form::Slice {
            place,
            object: _,
            start: _,
            end: _,
        } => put_words(words, &[21, u64::from(*place)]),
        Form::Call {
            place,
            callee: _,
            arguments: _,
        } => put_words(words, &[22, u64::from(*place)]),
        Form::Unary {
            place,
            operator,
            operand: _,
        } => put_words(
            words,
            &[23, u64::from(*place), u64::from(unary_number(*operator))],
        ),
        Form::Address { place, operand: _ } => put_words(words, &[24, u64::from(*place)]),
        Form::Try {
            place,
            operand: _,
            leaves: _,
        } => put_words(words, &[25, u64::from(*place)]),
        Form::Binary {
            place,
            operator_place,
            operator,
            left: _,
            right: _,
        } => put_words(
            words,
            &[
                26,
                u64::from(*place),
                u64::from(*operator_place),
                u64::from(binary_number(*operator)),
            ],
        ),
        Form::And {
            place,
            operator_place,
            left: _,
            right: _,
        } => put_words(words, &[27, u64::from(*place), u64::from(*operator_place)]),
        Form::Or {
            place,
            operator_place,
            left: _,
            right: _,
        } => put_words(words, &[28, u64::from(*place), u64::from(*operator_place)]),
        Form::Orelse {
            place,
            operator_place,
            left: _,
            right: _,
        } => put_words(words, &[29, u64::from(*place), u64::from(*operator_place)]),
        Form::Catch {
            place,
            operator_place,
            left: _,
            capture: _,
            right: _,
        } => put_words(words, &[30, u64::from(*place), u64::from(*operator_place)]),
        Form::Comptime { place, inner: _ } => put_words(words, &[31, u64::from(*place)]),
        Form::Optional { place, child: _ } => put_words(words, &[32, u64::from(*place)]),
        Form::Pointer {
            place,
            is_const,
            child: _,
        } => put_words(words, &[33, u64::from(*place), u64::from(*is_const)]),
        Form::SliceType {
            place,
            is_const,
            child: _,
        } => put_words(words, &[34, u64::from(*place), u64::from(*is_const)]),
        Form::ArrayType {
            place,
            length: _,
            child: _,
        } => put_words(words, &[35, u64::from(*place)]),
        Form::ErrorUnion {
            place,
            errors: _,
            payload: _,
        } => put_words(words, &[36, u64::from(*place)]),
        Form::Initializer {
            place,
            ty: _,
            values: _,
        } => put_words(words, &[37, u64::from(*place)]),
        Form::NoValues => put_words(words, &[38]),
        Form::NamedValues { values: _ } => put_words(words, &[39]),
        Form::NamedValue { name, value: _ } => {
            put_words(words, &[40])?;
            put_bytes(words, name.as_slice())
        }
        Form::ListedValues { values: _ } => put_words(words, &[41]),
        Form::Block {
            place,
            statements: _,
            leaves: _,
        } => put_words(words, &[42, u64::from(*place)]),
        Form::Labelled { place, block: _ } => put_words(words, &[43, u64::from(*place)]),
        Form::If {
            place,
            condition: _,
            capture: _,
            branches: _,
        } => put_words(words, &[44, u64::from(*place)]),
        Form::Branches {
            body: _,
            capture: _,
            otherwise: _,
        } => put_words(words, &[45]),
        Form::Loop {
            place,
            head: _,
            turn: _,
            branches: _,
        } => put_words(words, &[46, u64::from(*place)]),
        Form::WhileHead {
            condition: _,
            capture: _,
        } => put_words(words, &[47]),
        Form::ForHead {
            operands: _,
            captures: _,
        } => put_words(words, &[48]),
        Form::Range {
            place,
            start: _,
            end: _,
        } => put_words(words, &[49, u64::from(*place)]),
        Form::Captures { captures: _ } => put_words(words, &[50]),
        Form::Capture { place, local } => put_words(
            words,
            &[
                51,
                u64::from(*place),
                is_some_word(*local),
                some_word(*local),
            ],
        ),
        Form::PointerCapture { capture: _ } => put_words(words, &[52]),
        Form::Switch {
            place,
            operand: _,
            prongs: _,
        } => put_words(words, &[53, u64::from(*place)]),
        Form::Prong {
            items: _,
            capture: _,
            body: _,
        } => put_words(words, &[54]),
        Form::ElseProng {
            place,
            capture: _,
            body: _,
        } => put_words(words, &[55, u64::from(*place)]),
        Form::Interval {
            place,
            first: _,
            last: _,
        } => put_words(words, &[56, u64::from(*place)]),
        Form::Break {
            place,
            target,
            value: _,
            leaves: _,
        } => put_words(words, &[57, u64::from(*place), u64::from(*target)]),
        Form::Continue {
            place,
            target,
            leaves: _,
        } => put_words(words, &[58, u64::from(*place), u64::from(*target)]),
        Form::Return {
            place,
            value: _,
            leaves: _,
        } => put_words(words, &[59, u64::from(*place)]),
        Form::Runs { first: _, then: _ } => put_words(words, &[60]),
        Form::OnError {
            capture: _,
            body: _,
        } => put_words(words, &[61]),
        Form::Assign {
            place,
            operator_place,
            target: _,
            value: _,
        } => put_words(words, &[62, u64::from(*place), u64::from(*operator_place)]),
        Form::AssignWith {
            place,
            operator_place,
            operator,
            target: _,
            value: _,
        } => put_words(
            words,
            &[
                63,
                u64::from(*place),
                u64::from(*operator_place),
                u64::from(binary_number(*operator)),
            ],
        ),
        Form::Discard { place, value: _ } => put_words(words, &[64, u64::from(*place)]),
        Form::Ignored { place, value: _ } => put_words(words, &[65, u64::from(*place)]),
        Form::Constant {
            name_place,
            local,
            ty: _,
            value: _,
        } => put_words(
            words,
            &[
                66,
                u64::from(*name_place),
                is_some_word(*local),
                some_word(*local),
            ],
        ),
        Form::Variable {
            name_place,
            local,
            ty: _,
            value: _,
        } => put_words(
            words,
            &[
                67,
                u64::from(*name_place),
                is_some_word(*local),
                some_word(*local),
            ],
        ),
        Form::Function { head: _, body: _ } => put_words(words, &[68]),
        Form::Head {
            name_place,
            linkage: _,
            parameters: _,
            inferred: _,
            result: _,
        } => put_words(words, &[69, u64::from(*name_place)]),
        Form::Exported => put_words(words, &[70]),
        Form::External { library } => {
            put_words(words, &[71])?;
            put_bytes(words, library.as_slice())
        }
        Form::Inferred { place } => put_words(words, &[72, u64::from(*place)]),
        Form::Parameter {
            local,
            is_comptime,
            ty: _,
        } => put_words(
            words,
            &[
                73,
                is_some_word(*local),
                some_word(*local),
                u64::from(*is_comptime),
            ],
        ),
        Form::Anytype { place } => put_words(words, &[74, u64::from(*place)]),
        Form::Struct { place, fields: _ } => put_words(words, &[75, u64::from(*place)]),
        Form::Enum {
            place,
            tag: _,
            fields: _,
        } => put_words(words, &[76, u64::from(*place)]),
        Form::Union {
            place,
            tag: _,
            fields: _,
        } => put_words(words, &[77, u64::from(*place)]),
        Form::OwnTag => put_words(words, &[78]),
        Form::Fields { fields: _ } => put_words(words, &[79]),
        Form::Field {
            name_place,
            name,
            ty: _,
            value: _,
        } => {
            put_words(words, &[80, u64::from(*name_place)])?;
            put_bytes(words, name.as_slice())
        }
    }
}

/// Lines behind others.
fn put_lines(lines: &mut Vec<u32>, more: &[u32]) -> Result<(), AllocError>
    ensures { OnOk result (lines.new.items ≡ lines.old.items ++ more.now) }
{
    lines.extend_from_slice(more)
}

/// The lines below a form behind others.
#[tactic(auto, unfolding(crate::specs::Labels::children))]
pub fn put_children(form: &Form, lines: &mut Vec<u32>) -> Result<(), AllocError>
    ensures { OnOk result (lines.new.items ≡ lines.old.items ++ spec.children form.now) }
{
    match form {
        Form::Container {
            place: _,
            ordinal: _,
            captures,
        } => put_lines(lines, captures.as_slice()),
        Form::Builtin {
            place: _,
            builtin: _,
            arguments,
        } => put_lines(lines, arguments.as_slice()),
        Form::Grouped { place: _, inner } => put_lines(lines, &[*inner]),
        Form::Member {
            place: _,
            name_place: _,
            object,
            name: _,
        } => put_lines(lines, &[*object]),
        Form::Dereference { place: _, object } => put_lines(lines, &[*object]),
        Form::Unwrap { place: _, object } => put_lines(lines, &[*object]),
        Form::Index {
            place: _,
            object,
            index,
        } => put_lines(lines, &[*object, *index]),
        Form::Slice {
            place: _,
            object,
            start,
            end,
        } => put_lines(lines, &[*object, *start, *end]),
        Form::Call {
            place: _,
            callee,
            arguments,
        } => {
            put_lines(lines, &[*callee])?;
            put_lines(lines, arguments.as_slice())
        }
        Form::Unary {
            place: _,
            operator: _,
            operand,
        } => put_lines(lines, &[*operand]),
        Form::Address { place: _, operand } => put_lines(lines, &[*operand]),
        Form::Try {
            place: _,
            operand,
            leaves,
        } => {
            put_lines(lines, &[*operand])?;
            put_lines(lines, leaves.as_slice())
        }
        Form::Binary {
            place: _,
            operator_place: _,
            operator: _,
            left,
            right,
        } => put_lines(lines, &[*left, *right]),
        Form::And {
            place: _,
            operator_place: _,
            left,
            right,
        } => put_lines(lines, &[*left, *right]),
        Form::Or {
            place: _,
            operator_place: _,
            left,
            right,
        } => put_lines(lines, &[*left, *right]),
        Form::Orelse {
            place: _,
            operator_place: _,
            left,
            right,
        } => put_lines(lines, &[*left, *right]),
        Form::Catch {
            place: _,
            operator_place: _,
            left,
            capture,
            right,
        } => put_lines(lines, &[*left, *capture, *right]),
        Form::Comptime { place: _, inner } => put_lines(lines, &[*inner]),
        Form::Optional { place: _, child } => put_lines(lines, &[*child]),
        Form::Pointer {
            place: _,
            is_const: _,
            child,
        } => put_lines(lines, &[*child]),
        Form::SliceType {
            place: _,
            is_const: _,
            child,
        } => put_lines(lines, &[*child]),
        Form::ArrayType {
            place: _,
            length,
            child,
        } => put_lines(lines, &[*length, *child]),
        Form::ErrorUnion {
            place: _,
            errors,
            payload,
        } => put_lines(lines, &[*errors, *payload]),
        Form::Initializer {
            place: _,
            ty,
            values,
        } => put_lines(lines, &[*ty, *values]),
        Form::NamedValues { values } => put_lines(lines, values.as_slice()),
        Form::NamedValue { name: _, value } => put_lines(lines, &[*value]),
        Form::ListedValues { values } => put_lines(lines, values.as_slice()),
        Form::Block {
            place: _,
            statements,
            leaves,
        } => {
            put_lines(lines, &[*leaves])?;
            put_lines(lines, statements.as_slice())
        }
        Form::Labelled { place: _, block } => put_lines(lines, &[*block]),
        Form::If {
            place: _,
            condition,
            capture,
            branches,
        } => put_lines(lines, &[*condition, *capture, *branches]),
        Form::Branches {
            body,
            capture,
            otherwise,
        } => put_lines(lines, &[*body, *capture, *otherwise]),
        Form::Loop {
            place: _,
            head,
            turn,
            branches,
        } => put_lines(lines, &[*head, *turn, *branches]),
        Form::WhileHead { condition, capture } => put_lines(lines, &[*condition, *capture]),
        Form::ForHead { operands, captures } => {
            put_lines(lines, &[*captures])?;
            put_lines(lines, operands.as_slice())
        }
        Form::Range {
            place: _,
            start,
            end,
        } => put_lines(lines, &[*start, *end]),
        Form::Captures { captures } => put_lines(lines, captures.as_slice()),
        Form::PointerCapture { capture } => put_lines(lines, &[*capture]),
        Form::Switch {
            place: _,
            operand,
            prongs,
        } => {
            put_lines(lines, &[*operand])?;
            put_lines(lines, prongs.as_slice())
        }
        Form::Prong {
            items,
            capture,
            body,
        } => {
            put_lines(lines, &[*capture, *body])?;
            put_lines(lines, items.as_slice())
        }
        Form::ElseProng {
            place: _,
            capture,
            body,
        } => put_lines(lines, &[*capture, *body]),
        Form::Interval {
            place: _,
            first,
            last,
        } => put_lines(lines, &[*first, *last]),
        Form::Break {
            place: _,
            target: _,
            value,
            leaves,
        } => {
            put_lines(lines, &[*value])?;
            put_lines(lines, leaves.as_slice())
        }
        Form::Continue {
            place: _,
            target: _,
            leaves,
        } => put_lines(lines, leaves.as_slice()),
        Form::Return {
            place: _,
            value,
            leaves,
        } => {
            put_lines(lines, &[*value])?;
            put_lines(lines, leaves.as_slice())
        }
        Form::Runs { first, then } => put_lines(lines, &[*first, *then]),
        Form::OnError { capture, body } => put_lines(lines, &[*capture, *body]),
        Form::Assign {
            place: _,
            operator_place: _,
            target,
            value,
        } => put_lines(lines, &[*target, *value]),
        Form::AssignWith {
            place: _,
            operator_place: _,
            operator: _,
            target,
            value,
        } => put_lines(lines, &[*target, *value]),
        Form::Discard { place: _, value } => put_lines(lines, &[*value]),
        Form::Ignored { place: _, value } => put_lines(lines, &[*value]),
        Form::Constant {
            name_place: _,
            local: _,
            ty,
            value,
        } => put_lines(lines, &[*ty, *value]),
        Form::Variable {
            name_place: _,
            local: _,
            ty,
            value,
        } => put_lines(lines, &[*ty, *value]),
        Form::Function { head, body } => put_lines(lines, &[*head, *body]),
        Form::Head {
            name_place: _,
            linkage,
            parameters,
            inferred,
            result,
        } => {
            put_lines(lines, &[*linkage, *inferred, *result])?;
            put_lines(lines, parameters.as_slice())
        }
        Form::Parameter {
            local: _,
            is_comptime: _,
            ty,
        } => put_lines(lines, &[*ty]),
        Form::Struct { place: _, fields } => put_lines(lines, &[*fields]),
        Form::Enum {
            place: _,
            tag,
            fields,
        } => put_lines(lines, &[*tag, *fields]),
        Form::Union {
            place: _,
            tag,
            fields,
        } => put_lines(lines, &[*tag, *fields]),
        Form::Fields { fields } => put_lines(lines, fields.as_slice()),
        Form::Field {
            name_place: _,
            name: _,
            ty,
            value,
        } => put_lines(lines, &[*ty, *value]),
        Form::Missing
        | Form::Absent
        | Form::Local { .. }
        | Form::Captured { .. }
        | Form::Declared { .. }
        | Form::Primitive { .. }
        | Form::Integer { .. }
        | Form::Text { .. }
        | Form::Lines { .. }
        | Form::Unreachable { .. }
        | Form::EnumLiteral { .. }
        | Form::ErrorValue { .. }
        | Form::ErrorSet { .. }
        | Form::Import { .. }
        | Form::NoValues
        | Form::Capture { .. }
        | Form::Exported
        | Form::External { .. }
        | Form::Inferred { .. }
        | Form::Anytype { .. }
        | Form::OwnTag => Ok(()),
    }
}
