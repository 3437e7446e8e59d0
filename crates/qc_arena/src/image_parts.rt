// The parts of a before-image.
ghost use Rattle.std.specs.Prelude.{IfOk, ◌≡◌};
ghost use Rattle.qc_arena.specs.Parts.{parts_in};

use crate::Memory;
use crate::measure_columns::{ZERO, is_zero};
use aggregates::Part;
use cube_defs::MAX_MEASURES;
use std::alloc::{AllocError, Global};

/// The parts of the measures after the first.
#[derive(Clone, Copy)]
pub(crate) struct OtherParts {
    pub second: Part,
    pub third: Part,
    pub fourth: Part,
}

/// The parts of a before-image. Most cubes have one measure, and each of their images holds one
/// part. The others have a place of their own, if one of them isn't zero.
#[derive(Drop)]
pub(crate) struct ImageParts {
    pub first: Part,
    pub others: Option<Box<OtherParts>>,
}

impl ImageParts {
    // The parts of a node that is no class.
    pub(crate) fn none() -> ImageParts {
        ImageParts {
            first: ZERO,
            others: None,
        }
    }

    pub(crate) fn of(
        alloc: Global,
        parts: &[Part; MAX_MEASURES as usize],
    ) -> Result<ImageParts, Memory>
        ensures { IfOk result (λ stored. parts_in stored ≡ parts.now) }
    {
        let first = parts[0];
        if is_zero(parts[1]) && is_zero(parts[2]) && is_zero(parts[3]) {
            return Ok(ImageParts {
                first,
                others: None,
            });
        }
        let others = OtherParts {
            second: parts[1],
            third: parts[2],
            fourth: parts[3],
        };
        match Box::new(alloc, others) {
            Ok(others) => Ok(ImageParts {
                first,
                others: Some(others),
            }),
            Err(_) => Err(AllocError),
        }
    }

    pub(crate) fn all(&self) -> [Part; MAX_MEASURES as usize]
        ensures { result ≡ parts_in self.now }
    {
        match &self.others {
            Some(others) => [self.first, others.second, others.third, others.fourth],
            None => [self.first, ZERO, ZERO, ZERO],
        }
    }
}
