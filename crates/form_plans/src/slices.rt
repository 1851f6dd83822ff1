//! The lists of a point, lent.

ghost use Rattle.form_plans.specs.Slices.{AreQualSlicesOf, AreSlicesOf};

use point_checks::{Flows, PropSlices, QualSlices};
use program_points::{PropPoint, QualPoint};

/// The lists of a point of form Q.
pub(crate) fn prop_slices(point: &PropPoint) -> PropSlices<'_>
    ensures { AreSlicesOf point.now result }
{
    PropSlices {
        flows: Flows {
            base: point.base,
            feeds: point.x.as_slice(),
            outs: point.y.as_slice(),
            directs: point.z.as_slice(),
        },
        prop_base: point.prop_base,
        props: point.props.as_slice(),
        paths: point.w.as_slice(),
    }
}

/// The lists of a point of form P.
pub(crate) fn qual_slices(point: &QualPoint) -> QualSlices<'_>
    ensures { AreQualSlicesOf point.now result }
{
    QualSlices {
        flows: Flows {
            base: point.base,
            feeds: point.x.as_slice(),
            outs: point.y.as_slice(),
            directs: point.z.as_slice(),
        },
        qual_base: point.qual_base,
        quals: point.quals.as_slice(),
        mix: point.mix.as_slice(),
    }
}
