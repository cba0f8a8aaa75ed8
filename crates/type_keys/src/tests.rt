// A table that takes no more keys, through a function that reads, builds and interns.
ghost use Rattle.std.specs.Prelude.{◌≡◌, ℕ, [], ◌∷◌, Err};
ghost use Rattle.zw_base.specs.Outside.{Rose};
ghost use Rattle.type_form.specs.Words.{index_of};
ghost use Rattle.type_form.specs.Means.{IsTy};
ghost use Rattle.type_form.specs.Pool.{Interns, is_full};
ghost use Rattle.type_form.specs.declared.pool.InternFault.TheVariants.{Full};

use crate::types::{optional_type, pointer_type, simple_type};
use crate::{intern_list, ty_key};
use std::test::Fail;
use type_form::{Index, InternFault, Interner, Key, KeyBuf, Keys, SimpleTy};

/// The list of the types `*T` and `?*T`, where the optional `?T` stands at the index, and else of
/// those of the type there.
fn pointers<I: Interner>(ty: Index, p: &mut I) -> Result<Index, InternFault>
    requires { IsTy (I.known p.old) ty }
    ensures interns { Interns I.known I.home I.fulls p.old p.new (is_full result) }
    ensures rose { (s : ℕ) → result ≡ Err (Full s) → Rose (I.fulls p.old) (I.fulls p.new) }
{
    let of = match ty_key(ty, p) {
        Key::OptionalType { child } => child,
        _ => ty,
    };
    let pointer = pointer_type(false, of, p)?;
    let optional = optional_type(pointer, p)?;
    intern_list(&[pointer.0, optional.0], p)
}

/// Knows the type `bool` and nothing else, and takes no more keys.
#[derive(Drop)]
struct Closed {
    fulls: u64,
}

impl Keys for Closed {
    ghost known = { λ _. (index_of 0, 1 ∷ 2 ∷ []) ∷ [] };

    ghost Home = { Unit {0} };

    ghost home = { λ _. tt };

    ghost fulls = { λ s. s.fulls };

    fn find(&mut self, key: &[u64]) -> Option<Index> {
        let _fulls = self.fulls;
        if key == [1, 2].as_slice() {
            Some(Index(0))
        } else {
            None
        }
    }

    fn key_into(&mut self, _i: Index, into: &mut KeyBuf) {
        let _fulls = self.fulls;
        into.set(&[1, 2]);
    }
}

impl Interner for Closed {
    fn intern(&mut self, key: &[u64]) -> Result<Index, InternFault> {
        if let Some(i) = self.find(key) {
            return Ok(i);
        }
        self.fulls = self.fulls.saturating_add(1);
        Err(InternFault::Full { shard: 3 })
    }
}

#[test]
fn only_full_is_counted(rt: HostRuntime) -> Result<(), Fail> {
    let mut table = Closed { fulls: 0 };
    let bool_type = simple_type(SimpleTy::Bool, &mut table)?;
    assert_eq!(rt; table.fulls, 0);
    assert_eq!(rt;
        pointers(bool_type, &mut table),
        Err(InternFault::Full { shard: 3 })
    );
    assert_eq!(rt; table.fulls, 1);
    Ok(())
}
