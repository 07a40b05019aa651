//! The design loads that stand beside the HS20-44 truck in the AASHTO Standard Specifications for Highway
//! Bridges, and which of the three gives the most on a simple span. The lane load (3.7.6, Figure 3.7.6B) is
//! 640 lb per foot on any parts of the span, and one concentrated load of 18,000 lb for the moment, or of
//! 26,000 lb for the shear. The alternate military loading (3.7.4) is two axles of 24,000 lb, four feet apart.
//!
//! The effects of the lane load are two short formulas. The crates above are promised that some placement of
//! the load reaches them and none exceeds them: over every section, every place of the concentrated load, and
//! any parts that are loaded. They are promised that `greatest` gives the greatest peak of the three design
//! loads and names the first that reaches it, and that `fits_greatest` judges a truck by these peaks,
//! whatever fractions they are written with.
#![tactic(auto)]

mod governing;
mod judgement;
mod laws;
mod loads;

pub use governing::{By, GreatestEffects, greatest};
pub use judgement::{fit_is_of_the_greatest, fits_greatest};
pub use laws::{areas_are_under_the_lines, design_loads_are_the_peaks};
pub use loads::{lane, military};
