//! What a bridge span is asked to bear, and whether it can: the two effects of a truck, its peak
//! moment and its peak end shear, against a rating in thousandths of the effects of the design truck.
//!
//! The design truck is the HS20-44 of the AASHTO Standard Specifications for Highway Bridges. Impact
//! and the distribution between lanes would multiply both sides alike and are left out.
//!
//! The crates above are promised that `fits` judges by whole numbers alone, that it passes at
//! equality and names the moment before the shear, that its judgement is the one of any fractions with
//! which the four peaks are written, that `least_rating` is the least with which a span carries a truck,
//! and that each `SpanStudy` gives the peaks of its own truck and those of the design, and says exactly
//! which spans carry it.
#![tactic(auto)]

mod judgement;
mod loading;
mod span_study;

pub use judgement::{Fit, fit_is_of_the_peaks, fits, least_rating};
pub use loading::{Effects, Study};
pub use span_study::SpanStudy;
