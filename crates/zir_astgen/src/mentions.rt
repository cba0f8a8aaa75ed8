// What names stand for, by their tokens.
ghost use Rattle.std.specs.Prelude.{◌≡◌, ℕ, IfOk, OnOk};
ghost use Rattle.std.specs.BTreeMap.{get};
ghost use Rattle.std.specs.Option.{option_or};
ghost use Rattle.std.specs.Ordering.{nat_cmp};
ghost use Rattle.zir_astgen.specs.Site.{mention_at, mentioned};

use std::alloc::{AllocError, Global};
use std::collections::BTreeMap;
use std::marker::Model;
use zir_scope::{Event, Target};

/// What stands at the tokens of a file, in the order of its text.
#[derive(Debug, Drop)]
pub struct Mentions<'a> {
    events: &'a [Event],
    /// At each token of a name what it stands for.
    targets: BTreeMap<u32, Target>,
}

impl<'a> Model for Mentions<'a> {
    ghost use Rattle.std.specs.Prelude.{List};
    ghost use Rattle.zir_scope.specs.declared.event.Event.{Event};
    ghost use Rattle.zir_astgen.specs.Indexed.{AgreeTargets};

    ghost Value = { List Event };

    ghost view = { λ m. m.events.now };

    ghost invariant = { λ m. AgreeTargets m.events.now m.targets };
}

/// Takes in what stands at a token.
fn enter(targets: &mut BTreeMap<u32, Target>, event: Event) -> Result<(), AllocError>
    ensures { OnOk result ((q : ℕ) → get nat_cmp targets.new q ≡ option_or (mention_at q event) (get nat_cmp targets.old q)) }
{
    if let Event::Mentions { token, target } = event {
        let _ = targets.insert(token, target)?;
    }
    Ok(())
}

/// At each token of a name what it stands for.
fn targets_of(alloc: Global, events: &[Event]) -> Result<BTreeMap<u32, Target>, AllocError>
    ensures { IfOk result (λ m. (q : ℕ) → get nat_cmp m q ≡ mentioned events.now q) }
{
    let mut targets = BTreeMap::new(alloc);
    let mut rest = events;
    while let [event, more @ ..] = rest {
        enter(&mut targets, *event)?;
        rest = more;
    }
    Ok(targets)
}

impl<'a> Mentions<'a> {
    /// What stands at the tokens of a file, in near-linear time.
    pub fn of(alloc: Global, events: &'a [Event]) -> Result<Mentions<'a>, AllocError>
        ensures { IfOk result (λ m. m ≡ events.now) }
    {
        let targets = targets_of(alloc, events)?;
        Ok(Mentions { events, targets })
    }

    /// What stands for the name at a token, in logarithmic time.
    pub fn target(&self, token: u32) -> Option<Target>
        ensures { result ≡ mentioned self.now token }
    {
        self.targets.get(&token).copied()
    }
}
