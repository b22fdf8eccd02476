//! The semirings that get a loop of their own.

/// Calls with a semiring, in an arm of its own for each semiring that is used most. There its kinds
/// are literals, so that a loop that is inlined into the call is compiled for its operators and looks
/// none up; any other semiring is as it was. The arms are listed here alone.
///
/// `with_semiring!(semiring, |own| call)` gives what the call gives, and the call has in `own` a
/// semiring of the same kinds and domain.
#[macro_export]
macro_rules! with_semiring {
    ($semiring:expr, |$own:ident| $call:expr) => {
        $crate::with_semirings!(
            $semiring, $own, $call,
            Plus Times Int64, Min Plus Int64, Max Plus Int64,
            Plus First Int64, Plus Second Int64, Plus Oneb Int64, Min First Int64, Min Second Int64,
            Plus Times Uint64, Min Plus Uint64, Bor Band Uint64,
            Lor Land Bool,
        )
    };
}

/// An arm for each semiring of a list, by its monoid, its operator and its domain, and one for any other.
#[macro_export]
macro_rules! with_semirings {
    ($semiring:expr, $own:ident, $call:expr, $($add:ident $multiply:ident $domain:ident,)*) => {
        match (
            $semiring.add.kind,
            $semiring.multiply.kind,
            $semiring.multiply.domain,
        ) {
            $(($crate::MonoidKind::$add, $crate::BinaryKind::$multiply, $crate::Domain::$domain) => {
                let $own = $crate::Semiring::of(
                    $crate::MonoidKind::$add,
                    $crate::BinaryKind::$multiply,
                    $crate::Domain::$domain,
                );
                $call
            })*
            _ => {
                let $own = $semiring;
                $call
            }
        }
    };
}
