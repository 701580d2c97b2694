//! The laws of the scales. The functions do nothing: their contracts are the laws.

ghost use Rattle.st_scales.specs.Laws.{RouteAgrees, RouteIsKnown, RouteIsExact, RouteIsNear, RouteRises, RouteLoosens, RouteReturns, ConstantsAreFound};

/// A time has one value in each scale: what it is at least is no more than what it is at most, and
/// there are two such fractions as close to each other as one likes. Without a sine it is the source,
/// shifted.
pub fn one_value()
    ensures agrees { RouteAgrees }
    ensures known { RouteIsKnown }
    ensures exact { RouteIsExact }
{}

/// The value lies within 101 s of the source and rises with it, and its bounds may be loosened.
pub fn order()
    ensures near { RouteIsNear }
    ensures rises { RouteRises }
    ensures loosens { RouteLoosens }
{}

/// From a scale to what is near its TDB, and back, leads nearly to the start.
pub fn way_back()
    ensures returns { RouteReturns }
{}

/// Any numbers of the four variables are constants, or have a first fault.
pub fn each_has_answer()
    ensures { ConstantsAreFound }
{}
