// Laws of what is moved from one pool to another.
ghost use Rattle.pool_seat.specs.Moves.{SameDeclarations, SameInstances, SameLists, SameTypes, SameValues};

/// What an index of one pool and an index of another denote alike is the same type, value, declaration,
/// instance or list of numbers.
pub fn what_moves_stays_the_same()
    ensures types { SameTypes }
    ensures values { SameValues }
    ensures declarations { SameDeclarations }
    ensures instances { SameInstances }
    ensures lists { SameLists }
{}
