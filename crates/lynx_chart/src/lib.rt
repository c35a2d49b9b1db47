//! The chart of a run, as a picture in SVG: a column for each server, with its entries downward by
//! stamp.
#![tactic(auto)]

pub use charting::chart;

mod arrows;
mod boxes;
mod captions;
mod chains;
pub mod charting;
mod fates;
mod frames;
mod labels;
mod lines;
mod links;
mod listed;
mod meeting;
mod messages;
mod places;
mod restarts;
mod routes;
mod rows;
mod spot;
mod templates;
mod texts;
mod values;
