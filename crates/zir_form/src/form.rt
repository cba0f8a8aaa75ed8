// The forms of the core tree, as lines of instructions: a line's children are earlier lines, by number.
use crate::builtin::Builtin;
use crate::operator::{BinaryOperator, UnaryOperator};
use crate::primitive::Primitive;
use zw_base::{Bytes, Seq};

/// A form of the core tree: one variant for each form that a part's text can have once names are
/// targets, defers stand at the exits and loops have one form. `place` is where the form's first token
/// stands, `operator_place` where its operator and `name_place` where a name stands that a diagnostic
/// can point at, each in bytes from the first token of the part. The other numbers of a child or of a
/// list of children are numbers of lines. Chapters are those of the Zig Language Reference 0.14.
#[derive(Debug, Drop)]
pub enum Form {
    /// No form: stands where no sentence of the language has a tree.
    Missing,
    /// A child that is left out, as the type of `const x = 1;`.
    Absent,

    // ---- names
    /// A local, a parameter or a capture of the part, by its number in the part ("Variables").
    Local {
        place: u32,
        number: u32,
    },
    /// A local from outside the container that the part lies in, by its place among the locals that
    /// the container captures.
    Captured {
        place: u32,
        number: u32,
    },
    /// A declaration of a container around the part, the file being container 0 and the innermost one
    /// the last ("Container Level Variables").
    Declared {
        place: u32,
        depth: u32,
        name: Bytes,
    },
    /// A primitive type or value ("Primitive Types", "Primitive Values").
    Primitive {
        place: u32,
        primitive: Primitive,
    },

    // ---- literals
    /// A whole number, or a character as the number of its code point ("Integer Literals").
    Integer {
        place: u32,
        value: u128,
    },
    /// A string on one line, its escapes resolved ("String Literals").
    Text {
        place: u32,
        bytes: Bytes,
    },
    /// Lines that each begin with `\\`, joined by line ends ("Multiline String Literals").
    Lines {
        place: u32,
        bytes: Bytes,
    },
    /// `unreachable` ("unreachable").
    Unreachable {
        place: u32,
    },
    /// `.name`, whose type the place of use gives ("Enum Literals").
    EnumLiteral {
        place: u32,
        name: Bytes,
    },
    /// `error.Name` ("Error Set Type").
    ErrorValue {
        place: u32,
        name: Bytes,
    },
    /// `error{ A, B }`, the names as written ("Error Set Type").
    ErrorSet {
        place: u32,
        names: Seq<Bytes>,
    },
    /// A struct, an enum or a union that stands within the part: which container expression of the
    /// declaration it is, from 0, and the targets of the locals that it captures, in the order of their
    /// first mention in its text. What it holds is in parts of its own.
    Container {
        place: u32,
        ordinal: u32,
        captures: Seq<u32>,
    },

    // ---- calls and what is asked of a value
    /// A builtin with its arguments ("Builtin Functions").
    Builtin {
        place: u32,
        builtin: Builtin,
        arguments: Seq<u32>,
    },
    /// `@import` of a string ("@import").
    Import {
        place: u32,
        path: Bytes,
    },
    /// The same as what it holds, but begun earlier: parentheses, or a label before a loop.
    Grouped {
        place: u32,
        inner: u32,
    },
    /// `a.b`: a declaration of a container or file, a field of a value, or in a call a method
    /// ("struct").
    Member {
        place: u32,
        name_place: u32,
        object: u32,
        name: Bytes,
    },
    /// `a.*` ("Pointers").
    Dereference {
        place: u32,
        object: u32,
    },
    /// `a.?` ("Optionals").
    Unwrap {
        place: u32,
        object: u32,
    },
    /// `a[i]` ("Arrays").
    Index {
        place: u32,
        object: u32,
        index: u32,
    },
    /// `a[i..j]`, the end left out or not ("Slices").
    Slice {
        place: u32,
        object: u32,
        start: u32,
        end: u32,
    },
    /// `f(a, b)` ("Functions").
    Call {
        place: u32,
        callee: u32,
        arguments: Seq<u32>,
    },

    // ---- operators ("Operators")
    /// An operator before its operand.
    Unary {
        place: u32,
        operator: UnaryOperator,
        operand: u32,
    },
    /// `&a`, the address of a place.
    Address {
        place: u32,
        operand: u32,
    },
    /// `try e`, the same as `e catch |err| return err`, with what then runs ("try").
    Try {
        place: u32,
        operand: u32,
        leaves: Seq<u32>,
    },
    /// An operator between two operands that are both met.
    Binary {
        place: u32,
        operator_place: u32,
        operator: BinaryOperator,
        left: u32,
        right: u32,
    },
    /// `a and b`: the right operand is met only where the left is true.
    And {
        place: u32,
        operator_place: u32,
        left: u32,
        right: u32,
    },
    /// `a or b`: the right operand is met only where the left is false.
    Or {
        place: u32,
        operator_place: u32,
        left: u32,
        right: u32,
    },
    /// `a orelse b` ("Optionals").
    Orelse {
        place: u32,
        operator_place: u32,
        left: u32,
        right: u32,
    },
    /// `a catch b`, the error captured or not ("catch").
    Catch {
        place: u32,
        operator_place: u32,
        left: u32,
        capture: u32,
        right: u32,
    },
    /// `comptime e`: an expression, or a statement, that is evaluated at comptime ("comptime").
    Comptime {
        place: u32,
        inner: u32,
    },

    // ---- types
    /// `?T` ("Optional Type").
    Optional {
        place: u32,
        child: u32,
    },
    /// `*T`, `*const T` ("Pointers").
    Pointer {
        place: u32,
        is_const: bool,
        child: u32,
    },
    /// `[]T`, `[]const T` ("Slices").
    SliceType {
        place: u32,
        is_const: bool,
        child: u32,
    },
    /// `[N]T`; the length is absent in `[_]T` ("Arrays").
    ArrayType {
        place: u32,
        length: u32,
        child: u32,
    },
    /// `E!T` ("Error Union Type").
    ErrorUnion {
        place: u32,
        errors: u32,
        payload: u32,
    },

    // ---- values of containers
    /// `T{ .. }`, or `.{ .. }` without a type ("struct", "Anonymous Struct Literals").
    Initializer {
        place: u32,
        ty: u32,
        values: u32,
    },
    /// `{}`.
    NoValues,
    /// `{ .a = 1, .b = 2 }`.
    NamedValues {
        values: Seq<u32>,
    },
    /// A value with the name of its field.
    NamedValue {
        name: Bytes,
        value: u32,
    },
    /// `{ 1, 2 }`.
    ListedValues {
        values: Seq<u32>,
    },

    // ---- control
    /// Statements in braces without those that put something off, and what runs behind the last one
    /// ("Blocks", "defer").
    Block {
        place: u32,
        statements: Seq<u32>,
        leaves: u32,
    },
    /// A block that a `break` with its label can leave ("Blocks").
    Labelled {
        place: u32,
        block: u32,
    },
    /// `if (c) |x| ..` ("if").
    If {
        place: u32,
        condition: u32,
        capture: u32,
        branches: u32,
    },
    /// What an `if` or a loop does: its body, and what stands behind `else`.
    Branches {
        body: u32,
        capture: u32,
        otherwise: u32,
    },
    /// A loop of either kind: before each turn the head is asked, and `turn` is done behind the body
    /// ("while", "for").
    Loop {
        place: u32,
        head: u32,
        turn: u32,
        branches: u32,
    },
    /// The loop goes on while this is true, not null or no error ("while").
    WhileHead {
        condition: u32,
        capture: u32,
    },
    /// The loop goes over these operands side by side ("for").
    ForHead {
        operands: Seq<u32>,
        captures: u32,
    },
    /// `a..b` or `a..` as an operand of a loop ("for").
    Range {
        place: u32,
        start: u32,
        end: u32,
    },
    /// The names that a loop captures.
    Captures {
        captures: Seq<u32>,
    },
    /// A name in bars; `_` has no number.
    Capture {
        place: u32,
        local: Option<u32>,
    },
    /// A name in bars that is captured by pointer, `*x`.
    PointerCapture {
        capture: u32,
    },
    /// `switch (a) { .. }` ("switch").
    Switch {
        place: u32,
        operand: u32,
        prongs: Seq<u32>,
    },
    /// A prong with the values that it takes.
    Prong {
        items: Seq<u32>,
        capture: u32,
        body: u32,
    },
    /// The prong `else`.
    ElseProng {
        place: u32,
        capture: u32,
        body: u32,
    },
    /// `a...b` as a value of a prong: both ends are in it ("switch").
    Interval {
        place: u32,
        first: u32,
        last: u32,
    },
    /// `break` from a loop or a labelled block: how many of these lie between, the value if there is
    /// one, and what runs for each block that is left, the innermost first ("break", "defer").
    Break {
        place: u32,
        target: u32,
        value: u32,
        leaves: Seq<u32>,
    },
    /// `continue` of a loop ("continue").
    Continue {
        place: u32,
        target: u32,
        leaves: Seq<u32>,
    },
    /// `return` ("Functions", "errdefer").
    Return {
        place: u32,
        value: u32,
        leaves: Seq<u32>,
    },
    /// What runs as a block is left: what was put off last, and then the rest ("defer").
    Runs {
        first: u32,
        then: u32,
    },
    /// What runs only where the function returns an error, which may be captured ("errdefer").
    OnError {
        capture: u32,
        body: u32,
    },

    // ---- statements
    /// `a = b` ("Assignment").
    Assign {
        place: u32,
        operator_place: u32,
        target: u32,
        value: u32,
    },
    /// `a += b` and its kin.
    AssignWith {
        place: u32,
        operator_place: u32,
        operator: BinaryOperator,
        target: u32,
        value: u32,
    },
    /// `_ = a`.
    Discard {
        place: u32,
        value: u32,
    },
    /// An expression as a statement, whose value may not be dropped.
    Ignored {
        place: u32,
        value: u32,
    },
    /// `const x: T = e;`, of a container, or of the part with its number ("Variables").
    Constant {
        name_place: u32,
        local: Option<u32>,
        ty: u32,
        value: u32,
    },
    /// `var x: T = e;`, of a container, or of the part with its number ("Variables").
    Variable {
        name_place: u32,
        local: Option<u32>,
        ty: u32,
        value: u32,
    },

    // ---- functions ("Functions")
    /// A function: its head, and its body, which one that is imported lacks.
    Function {
        head: u32,
        body: u32,
    },
    /// The head of a function.
    Head {
        name_place: u32,
        linkage: u32,
        parameters: Seq<u32>,
        inferred: u32,
        result: u32,
    },
    /// `export`: the module exports the function by its name.
    Exported,
    /// `extern`: the function is imported from this module, `env` where none is given.
    External {
        library: Bytes,
    },
    /// `!` before the result: its error set is that of the body.
    Inferred {
        place: u32,
    },
    /// A parameter; `_` has no number.
    Parameter {
        local: Option<u32>,
        is_comptime: bool,
        ty: u32,
    },
    /// `anytype` as the type of a parameter ("Function Parameter Type Inference").
    Anytype {
        place: u32,
    },

    // ---- what containers hold
    /// The fields of a struct ("struct").
    Struct {
        place: u32,
        fields: u32,
    },
    /// The members of an enum, with its tag type if it names one ("enum").
    Enum {
        place: u32,
        tag: u32,
        fields: u32,
    },
    /// The members of a union, with its tag ("Tagged union").
    Union {
        place: u32,
        tag: u32,
        fields: u32,
    },
    /// `enum` as the tag of a union: an enum of its own.
    OwnTag,
    /// Fields in a row.
    Fields {
        fields: Seq<u32>,
    },
    /// A field of a struct or a member of an enum or a union.
    Field {
        name_place: u32,
        name: Bytes,
        ty: u32,
        value: u32,
    },
}
