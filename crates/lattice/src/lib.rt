//! Score types: bounded distributive lattices whose scores have 64-bit codes, and brackets over them.

#![tactic(auto)]

ghost use Rattle.std.specs.Prelude.{◌≡◌};
ghost use Rattle.lattice.specs.Scores.{Scoring, Laws, standing};

pub mod bracket;
pub mod family;
pub mod tricks;

/// A type of scores. A value may come out of memory that others wrote, so each value stands for a score,
/// and every operation is right for every value.
pub trait Lattice: Sized + Copy {
    // The scores, their operations, the score that a value stands for, and the laws that the operations keep.
    ghost Score: { Type 0 };

    ghost scoring: { Scoring Score };

    ghost stands: { Self → Score };

    ghost laws: { Laws scoring };

    /// The least score.
    fn bottom() -> Self
        ensures { stands result ≡ scoring.bottom };

    /// The greatest score.
    fn top() -> Self
        ensures { stands result ≡ scoring.top };

    /// The least score that both are at or below.
    fn join(self, other: Self) -> Self
        ensures { stands result ≡ scoring.join (stands self) (stands other) };

    /// The greatest score that is at or below both.
    fn meet(self, other: Self) -> Self
        ensures { stands result ≡ scoring.meet (stands self) (stands other) };

    fn at_or_below(self, other: Self) -> bool
        ensures { result ≡ scoring.below (stands self) (stands other) };

    /// The score as a number.
    fn code(self) -> u64
        ensures { result ≡ scoring.code (stands self) };

    /// The score with this code, or none if the number is no score's code.
    fn read(code: u64) -> Option<Self>
        ensures { standing stands result ≡ scoring.decode code };
}

#[cfg(test)]
mod tests {
    use super::Lattice;
    use super::bracket::Bracket;
    use super::family::Family;
    use super::tricks::Tricks;

    #[test]
    fn tells_families(rt: HostRuntime) {
        assert!(rt; Family(7).is_family());
        assert!(rt; !Family(2).is_family());
        assert!(rt; !Family(8).is_family());
        assert!(rt; !Family(11).is_family());
    }

    #[test]
    fn joins_and_meets(rt: HostRuntime) {
        assert_eq!(rt; Family(3).join(Family(5)).code(), 7);
        assert_eq!(rt; Family(3).meet(Family(5)).code(), 1);
        assert_eq!(rt; Tricks(4).join(Tricks(14)).code(), 4);
    }

    #[test]
    fn decides_windows(rt: HostRuntime) {
        let window = Bracket {
            lo: Family(3),
            hi: Family::top(),
        };
        let bracket = Bracket {
            lo: Family(1),
            hi: Family(3),
        };
        assert!(rt; bracket.decides(window));
        assert!(rt; !window.decides(window));
    }

    #[test]
    fn makes_brackets(rt: HostRuntime) {
        let point = Bracket::point(Tricks(4));
        assert_eq!(rt; point.lo.code(), 4);
        assert_eq!(rt; point.hi.code(), 4);
        let whole: Bracket<Tricks> = Bracket::whole();
        assert_eq!(rt; whole.lo.code(), 0);
        assert_eq!(rt; whole.hi.code(), 13);
    }
}
