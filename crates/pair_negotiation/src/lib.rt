//! How a session of plans that match begins: the negotiation.
//!
//! Proved: `pairs_begin` (for codecs that agree on a shared dialect, the first exchange leads both ends to the first row of one dialect, the first of the
//! car's that the post speaks: the post is to send its response, and the car to ask for SessionSetup).
#![tactic(auto)]

ghost use Rattle.car_spec.specs.Codecs as car;
ghost use Rattle.pair_negotiation.specs.Beginning.{PairsBegin};
ghost use Rattle.post_spec.specs.Codecs as post;

use car_spec::CarCoded;
use post_spec::Coded;

/// For codecs that agree on a shared dialect, the first exchange of plans that match leads both ends to the first row of one dialect (ISO 15118-2:2014, 8.2).
pub fn pairs_begin<C: Coded, D: CarCoded>()
    ensures { PairsBegin (post.codecs C.negotiates C.reads C.encodes) (car.codecs D.offers D.responds D.reads D.encodes) }
{}
