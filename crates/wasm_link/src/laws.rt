// The order of work changes nothing.
ghost use Rattle.wasm_link.specs.Link.{OrderChangesNothing};

/// The order in which functions and data items are given changes nothing, where their spellings differ.
pub fn order_changes_nothing()
    ensures { OrderChangesNothing }
{}
