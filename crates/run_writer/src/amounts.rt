// Amounts to give.
use base_quantities::{Magnitude, Signed};

// An amount with a plus.
pub fn plus(magnitude: u64) -> Option<Signed> {
    Some(Signed {
        negative: false,
        magnitude: Magnitude(magnitude),
    })
}

// An amount with a minus.
pub fn minus(magnitude: u64) -> Option<Signed> {
    Some(Signed {
        negative: true,
        magnitude: Magnitude(magnitude),
    })
}
