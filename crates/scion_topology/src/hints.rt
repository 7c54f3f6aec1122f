use isd_as::IsdAs;
use std::alloc::{AllocError, Global};

/// The number of hints.
const HINTS: usize = 4096;

/// Guesses where ASes are: a place for each remainder of an address by the number of hints. A guess
/// may be wrong, so every user checks it.
#[derive(Drop)]
pub struct HashHints {
    places: Vec<u16>,
}

impl HashHints {
    /// Hints without any noted place.
    pub(crate) fn new(alloc: Global) -> Result<HashHints, AllocError> {
        Ok(HashHints {
            places: vec![in alloc; 0; HINTS]?,
        })
    }

    /// The place where an AS may be.
    #[inline]
    pub(crate) fn place(&self, ia: IsdAs) -> usize {
        match self.places.get(slot(ia)) {
            Some(place) => usize::from(*place),
            None => 0,
        }
    }

    /// Notes the place of an AS; this replaces any place noted for the same remainder.
    pub(crate) fn note(&mut self, ia: IsdAs, place: usize) {
        let Ok(place) = u16::try_from(place) else {
            return;
        };
        if let Some(hint) = self.places.get_mut(slot(ia)) {
            *hint = place;
        }
    }
}

/// The number of the hint for an AS.
fn slot(ia: IsdAs) -> usize {
    ia.number() as usize % HINTS
}
