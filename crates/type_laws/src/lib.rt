//! Laws of the spellings of types, values, declarations, arguments and units.
//!
//! The model: a tree is fit where each layer in it is well formed and each value fits its type. All
//! trees that analysis makes are to be fit. What a spelling leaves out, as the types of the fields
//! of a struct, has one answer in a whole program, `Program`.
//! Public calls do nothing; their clauses are the laws. `equal_types`, `equal_arguments` and
//! `equal_units`: equal spellings of fit trees are equal trees; `equal_parts`: so it is for the trees
//! that these are made of; `fit_by_layers`: which trees are fit; `unfit_trees_share_spellings`: why
//! each condition is there.
//! The crate stands on `type_form` and `zw_base`.
#![tactic(auto)]

ghost use Rattle.type_laws.specs.Laws.{EqualTypes, EqualArguments, EqualUnits, EqualValues, EqualDeclarations, EqualInstances, TypesByLayers, ValuesByLayers, PathsByLayers, ArgumentsByLayers};
ghost use Rattle.type_laws.specs.Doubles.{AnySet, AnyPath, AnyPlace, AnyOptional, AnyEmpty, AnyPart, AnyPayload, AnyPointer};

/// Two fit types with one spelling are one type.
pub fn equal_types()
    ensures { EqualTypes }
{}

/// Two fit arguments of one program with one spelling are one argument.
pub fn equal_arguments()
    ensures { EqualArguments }
{}

/// Two fit units of one program with one spelling are one unit.
pub fn equal_units()
    ensures { EqualUnits }
{}

/// The same of two declarations, two instances, and two values of one type.
pub fn equal_parts()
    ensures declarations { EqualDeclarations }
    ensures instances { EqualInstances }
    ensures values { EqualValues }
{}

/// A tree is fit exactly where its outer layer is well formed and the parts of this layer are fit.
pub fn fit_by_layers()
    ensures types { TypesByLayers }
    ensures values { ValuesByLayers }
    ensures paths { PathsByLayers }
    ensures arguments { ArgumentsByLayers }
{}

/// Trees that differ and have one spelling, for each condition by which fit trees are told apart.
pub fn unfit_trees_share_spellings()
    ensures set { AnySet }
    ensures path { AnyPath }
    ensures place { AnyPlace }
    ensures optional { AnyOptional }
    ensures empty { AnyEmpty }
    ensures part { AnyPart }
    ensures payload { AnyPayload }
    ensures pointer { AnyPointer }
{}
