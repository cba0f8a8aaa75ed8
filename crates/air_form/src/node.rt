// The forms of typed bodies, as nodes: a node's parts are earlier nodes, by number.
use crate::operator::{BinOp, CmpOp, Conversion, UnOp};
use type_form::Index;
use zw_base::Seq;

/// A node of a typed body, by its number among the nodes of its builder or body.
#[derive(Clone, Copy, Debug, PartialEq, Eq)]
pub struct AirRef(pub u64);

/// The function that a call calls.
#[derive(Clone, Copy, Debug, PartialEq, Eq)]
pub enum Callee {
    /// A function with a body: the index of its instance.
    Instance(Index),
    /// A function that the module imports: the indices of its declaration, of the bytes of the
    /// imported module's name, and of the list of its parameters' types.
    Extern {
        decl: Index,
        library: Index,
        params: Index,
    },
}

/// What one field or element of a whole is set to.
#[derive(Clone, Copy, Debug, PartialEq, Eq)]
pub struct Part {
    /// The number of the field or the element, from 0.
    pub number: u32,
    /// An expression, scalar or wide.
    pub value: AirRef,
}

/// A form of a typed body. A place is where a value stands: a slot is a local of the function, and
/// the rest are in memory. A scalar expression gives a value that an instruction can hold; a wide
/// expression describes a value that is written into memory part by part. `ty` is the index of a
/// type. Chapters are those of the Zig Language Reference 0.14.
#[derive(Debug, Drop)]
pub enum AirNode {
    // ---- places
    /// The slot with this number ("Variables").
    Slot {
        number: u32,
    },
    /// Where a result goes that is wide ("Functions").
    Result,
    /// A declaration or a constant in the module's data: the index of its address as a value.
    Data {
        item: Index,
    },
    /// `a.*`, a value of this type at a pointer ("Pointers").
    Dereference {
        ty: Index,
        pointer: AirRef,
    },
    /// The field with this number, of this type, of a struct ("struct").
    Field {
        ty: Index,
        object: AirRef,
        number: u32,
    },
    /// `a[i]` of an array, whose elements have this type; the index is below the bound, else it
    /// traps ("Arrays").
    Element {
        ty: Index,
        array: AirRef,
        index: AirRef,
        bound: u64,
    },
    /// `a[i]` of the slice that stands at a place, whose elements have this type ("Slices").
    SliceElement {
        ty: Index,
        slice: AirRef,
        index: AirRef,
    },
    /// What an optional, an error union or a union holds, of this type ("Optionals", "Errors",
    /// "union").
    Payload {
        ty: Index,
        object: AirRef,
    },

    // ---- scalar expressions
    /// A known value, by its index ("comptime").
    Constant {
        value: Index,
    },
    /// The value at a place.
    Load {
        place: AirRef,
    },
    /// The address of a place ("Pointers").
    Address {
        place: AirRef,
    },
    /// An operator on two values of this type ("Operators").
    Binary {
        op: BinOp,
        ty: Index,
        left: AirRef,
        right: AirRef,
    },
    /// An operator on a value of this type ("Operators", "Builtin Functions").
    Unary {
        op: UnOp,
        ty: Index,
        operand: AirRef,
    },
    /// A comparison of two values of this type ("Operators").
    Compare {
        op: CmpOp,
        ty: Index,
        left: AirRef,
        right: AirRef,
    },
    /// `!a` ("Operators").
    Not {
        operand: AirRef,
    },
    /// A value of one type as a value of another ("Type Coercion", "@intCast").
    Convert {
        conversion: Conversion,
        from: Index,
        to: Index,
        operand: AirRef,
    },
    /// `a and b`: the right operand is evaluated only where the left is true ("Operators").
    And {
        left: AirRef,
        right: AirRef,
    },
    /// `a or b`: the right operand is evaluated only where the left is false ("Operators").
    Or {
        left: AirRef,
        right: AirRef,
    },
    /// How many elements the slice at a place has ("Slices").
    Length {
        slice: AirRef,
    },
    /// Whether the optional at a place is not null ("Optionals").
    Has {
        object: AirRef,
    },
    /// The error of the error union at a place, whose number is 0 where it holds none ("Errors").
    ErrorOf {
        object: AirRef,
    },
    /// The tag of the union at a place ("Tagged union").
    TagOf {
        object: AirRef,
    },
    /// A call whose result, of this type, is a scalar or no value ("Functions").
    Call {
        callee: Callee,
        result: Index,
        arguments: Seq<AirRef>,
    },
    /// A value behind statements that belong to it.
    Sequence {
        statements: Seq<AirRef>,
        value: AirRef,
    },
    /// Statements that never end, in the place of a value ("noreturn").
    Never {
        statements: Seq<AirRef>,
    },

    // ---- wide expressions
    /// The value at another place.
    Copy {
        place: AirRef,
    },
    /// A struct or an array by its parts, in the order in which they are set ("struct", "Arrays").
    Make {
        parts: Seq<Part>,
    },
    /// An optional that holds this value ("Optionals").
    Some {
        payload: AirRef,
    },
    /// An error union that holds this value ("Errors").
    Good {
        payload: AirRef,
    },
    /// An error union that holds this error ("Errors").
    Bad {
        error: AirRef,
    },
    /// A union whose member with this number is active and holds this value ("Tagged union").
    Arm {
        number: u32,
        payload: AirRef,
    },
    /// A slice by the address of its first element and its length ("Slices").
    Slice {
        pointer: AirRef,
        length: AirRef,
    },
    /// The elements from `low` to before `high` of a slice that is given so, which traps where they
    /// are not there ("Slices").
    Subslice {
        pointer: AirRef,
        length: AirRef,
        low: AirRef,
        high: AirRef,
    },
    /// A call whose result, of this type, is wide ("Functions").
    WideCall {
        callee: Callee,
        result: Index,
        arguments: Seq<AirRef>,
    },

    // ---- statements
    /// Sets what stands at a place to an expression, scalar or wide ("Assignment").
    Init {
        place: AirRef,
        value: AirRef,
    },
    /// Evaluates a scalar expression and drops its value ("Assignment").
    Evaluate {
        value: AirRef,
    },
    /// One list of statements or the other ("if").
    If {
        condition: AirRef,
        then: Seq<AirRef>,
        otherwise: Seq<AirRef>,
    },
    /// Statements that a break with their label leaves ("Blocks").
    Block {
        label: u32,
        statements: Seq<AirRef>,
    },
    /// Statements that are done again and again until a break with their label ("while", "for").
    Loop {
        label: u32,
        statements: Seq<AirRef>,
    },
    /// Leaves the block or the loop with this label ("Blocks").
    Break {
        label: u32,
    },
    /// Leaves the function, with its result where that is a scalar ("Functions").
    Return {
        value: Option<AirRef>,
    },
    /// Ends the program ("unreachable").
    Trap,
    /// Traps unless the condition is true ("Undefined Behavior").
    Check {
        condition: AirRef,
    },
}
