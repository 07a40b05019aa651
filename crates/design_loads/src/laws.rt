// Laws of the areas under influence lines and of the effects of the design loads. These functions do nothing
// when they run: each one's contract is a law that is proved once.

ghost use Rattle.design_loads.specs.Laws.{GreatestIsOfThePeaks, GreatestIsOne, LaneIsOne, LaneIsThePeaks, MomentAreaIsParted, MomentAreaIsUnderTheLine, ReactionAreaIsUnderTheLine};

/// What the definition of the lane load calls twice an area is that under the influence line: on a straight
/// part of the line the length of the interval times the sum of the line at both ends, and of an interval
/// with the section inside the sum of its two parts.
pub fn areas_are_under_the_lines()
    ensures moment { MomentAreaIsUnderTheLine }
    ensures parted { MomentAreaIsParted }
    ensures reaction { ReactionAreaIsUnderTheLine }
{}

/// The functions of the span give the peaks of the lane load over all of its placements, and the greatest
/// effects of the three design loads with the first that reaches each; and no other effects are these.
pub fn design_loads_are_the_peaks()
    ensures lane { LaneIsThePeaks }
    ensures lane_alone { LaneIsOne }
    ensures greatest { GreatestIsOfThePeaks }
    ensures greatest_alone { GreatestIsOne }
{}
