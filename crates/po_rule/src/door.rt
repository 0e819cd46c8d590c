//! How a worker comes to the rules that are published.
ghost use Rattle.std.specs.Prelude.{◌≡◌, ℕ, List, IfOk, IfErr};
ghost use mathlib.Core.List.{IsPrefix};
ghost use Rattle.po_model.specs.declared.machine.Machine.{Machine};
ghost use Rattle.po_model.specs.Holed.{PlainRule};
ghost use Rattle.po_model.specs.Lookups.{AreCanonical};
ghost use Rattle.po_rule.specs.Posts.{RoseBy};

use crate::lookup::Lookup;

/// A way in to a list of rules, and out again. Contracts see its machine, the rules that it was told of, and how often
/// it refused, a count of 64 bits at most, which never falls; outside and inside alike. They see further a value of
/// the implementer's own, which stays (docs/LEARNING.md, "A worker's unit").
pub trait Door: Sized {
    /// The same inside, where rules are looked up.
    type Inside: Lookup;

    ghost Home: { Type 0 };

    ghost machine: { Self → Machine };

    ghost told: { Self → List PlainRule };

    ghost refusals: { Self → ℕ };

    ghost home: { Self → Home };

    ghost inside_told: { Self.Inside → List PlainRule };

    ghost inside_refusals: { Self.Inside → ℕ };

    ghost inside_home: { Self.Inside → Home };

    /// In, to rules that begin with all that the door was told of; the door comes back only where it refuses, which it
    /// counts (docs/LEARNING.md, "A worker's unit").
    fn enter(self) -> Result<Self::Inside, Self>
        ensures machine { IfOk result (λ i. Self.Inside.machine i ≡ machine self) }
        ensures canonical { IfOk result (λ i. AreCanonical (machine self) (Self.Inside.rules i)) }
        ensures rules { IfOk result (λ i. IsPrefix (told self) (Self.Inside.rules i)) }
        ensures told { IfOk result (λ i. IsPrefix (told self) (inside_told i)) }
        ensures refusals { IfOk result (λ i. inside_refusals i ≡ refusals self) }
        ensures home { IfOk result (λ i. inside_home i ≡ home self) }
        ensures back { IfErr result (λ d. (machine d ≡ machine self) × (told d ≡ told self) × (home d ≡ home self)) }
        ensures cause { IfErr result (λ d. RoseBy 1 (refusals self) (refusals d)) };

    /// Out again (docs/LEARNING.md, "A worker's unit").
    fn leave(inside: Self::Inside) -> Self
        ensures machine { machine result ≡ Self.Inside.machine inside }
        ensures told { told result ≡ inside_told inside }
        ensures refusals { refusals result ≡ inside_refusals inside }
        ensures home { home result ≡ inside_home inside };
}
